ghost use Rattle.std.specs.Prelude.{◌≡◌, ℕ, ◌≤◌, length, IfOk, Ok};
ghost use Rattle.refusals.specs.Reading.{need};
ghost use Rattle.refusals.specs.declared.Refusal.TheVariants.{Malformed, Missing};
ghost use Rattle.parts.specs.Parts.{piece, some, none};
ghost use Rattle.der.specs.Contents.{bytes_in, shortest, integer_in};

use crate::kinds::Held;
use claims::kinds::Bytes;
use parts::kinds::Part;
use parts::numbers::read_big;
use refusals::Refusal;

// Whether an INTEGER has a byte, and no first byte that could be left out.
pub fn is_shortest(content: &[u8]) -> bool
    ensures { result ≡ shortest content.now }
{
    match content {
        [] => false,
        [_] => true,
        [0, second, ..] => *second >= 128,
        [255, second, ..] => *second < 128,
        _ => true,
    }
}

impl<'a> Held<'a> {
    // The content, which may not be empty.
    pub fn filled(self) -> Result<Part<'a>, Refusal>
        ensures { result ≡ need (some (piece self.entry.content)) (Missing self.entry.at) (Ok self.entry.content) }
    {
        if self.content.is_empty() {
            return Err(Refusal::Missing(self.at));
        }
        Ok(self.content)
    }

    // The end: nothing may follow the item.
    pub fn ended(self) -> Result<(), Refusal>
        ensures { result ≡ need (none (piece self.entry.rest)) (Malformed (piece self.entry.rest).at) (Ok tt) }
    {
        if !self.rest.is_empty() {
            return Err(Refusal::Malformed(self.rest.place()));
        }
        Ok(())
    }

    // A content of `least` to N bytes.
    pub fn read_bytes<const N: usize>(self, least: usize) -> Result<Bytes<N>, Refusal>
        ensures { result ≡ bytes_in N least self.entry.at (piece self.entry.content).bytes }
    {
        Bytes::new(self.content.bytes(), least).ok_or(Refusal::OutOfLimits(self.at))
    }

    // An INTEGER of 0 to `most`.
    pub fn read_integer(self, most: u64) -> Result<u64, Refusal>
        ensures value { result ≡ integer_in most self.entry.at (piece self.entry.content).bytes }
        ensures within { IfOk result (λ n. n ≤ most) }
    {
        let at = self.at;
        let content = self.content.bytes();
        if !is_shortest(content) {
            return Err(Refusal::Malformed(at));
        }
        if content.first().is_some_and(|first| *first >= 128) {
            return Err(Refusal::OutOfLimits(at));
        }
        let number = read_big(content).ok_or(Refusal::OutOfLimits(at))?;
        if number > most {
            return Err(Refusal::OutOfLimits(at));
        }
        Ok(number)
    }
}
