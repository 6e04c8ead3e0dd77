ghost use Rattle.std.specs.Prelude.{◌≡◌, ◌+◌, ◌-◌, ◌<◌, length, drop};
ghost use Rattle.parts.specs.Parts.{piece, whole_of, after, front, none, before};

use crate::kinds::Part;

// What follows the first n bytes.
pub fn tail(bytes: &[u8], n: usize) -> &[u8]
    ensures value { result.now ≡ drop n bytes.now }
    ensures len { length result.now ≡ length bytes.now - n }
{
    &bytes[n.min(bytes.len())..]
}

impl<'a> Part<'a> {
    // The whole message.
    pub fn whole(message: &'a [u8]) -> Part<'a>
        ensures { piece result ≡ whole_of message.now }
    {
        Part { message, at: 0 }
    }

    // The place of the first byte.
    pub fn place(self) -> usize
        ensures { result ≡ (piece self.entry).at }
    {
        self.at
    }

    pub fn bytes(self) -> &'a [u8]
        ensures value { result.now ≡ (piece self.entry).bytes }
        ensures place { 0 < length result.now → self.entry.at + length result.now ≡ length self.entry.message.now }
    {
        tail(self.message, self.at)
    }

    pub fn is_empty(self) -> bool
        ensures { result ≡ none (piece self.entry) }
    {
        self.bytes().is_empty()
    }

    // What follows the first n bytes.
    pub fn after(self, n: usize) -> Part<'a>
        ensures value { piece result ≡ after n (piece self.entry) }
        ensures len { length (piece result).bytes ≡ length (piece self.entry).bytes - n }
    {
        let step = n.min(self.bytes().len());
        Part {
            at: self.at + step,
            ..self
        }
    }

    // The first n bytes.
    pub fn front(self, n: usize) -> Part<'a>
        ensures { piece result ≡ front n (piece self.entry) }
    {
        if n >= self.bytes().len() {
            return self;
        }
        let end = self.at + n;
        Part {
            message: &self.message[..end],
            ..self
        }
    }

    // How many bytes stand before the rest of the part.
    pub fn before(self, rest: Part<'_>) -> usize
        ensures { result ≡ before (piece self.entry) (piece rest.entry) }
    {
        self.bytes().len().saturating_sub(rest.bytes().len())
    }
}
