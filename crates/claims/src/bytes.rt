ghost use Rattle.std.specs.Prelude.{◌≡◌, ℕ, ◌≤◌, List, length, Decides};
ghost use Rattle.claims.specs.Bytes.{bounded, kept_from, content, same};

use crate::kinds::Bytes;

// The bytes of `part`, with zeros after them.
fn padded<const N: usize>(part: &[u8]) -> Bytes<N>
    requires { length part.now ≤ N }
    ensures { result ≡ bounded N part.now }
{
    let mut places = [0; N];
    places[..part.len()].copy_from_slice(part);
    Bytes {
        len: part.len(),
        places,
    }
}

impl<const N: usize> Bytes<N> {
    // Keeps the bytes of `part`; none where there are fewer than `least` or more than N.
    pub fn new(part: &[u8], least: usize) -> Option<Bytes<N>>
        ensures { result ≡ kept_from N least part.now }
    {
        if part.len() < least || part.len() > N {
            return None;
        }
        Some(padded(part))
    }

    // The bytes that were kept.
    pub fn as_slice(&self) -> &[u8]
        ensures { result.now ≡ content self.now }
    {
        let all = self.places.as_slice();
        &all[..self.len.min(all.len())]
    }

    // Whether both hold the same bytes, by the derived `==`; it stays for the laws it names.
    pub fn is_same(&self, other: &Bytes<N>) -> bool
        ensures value { result ≡ same self.now other.now }
        ensures law { (xs ys : List ℕ) → self.now ≡ bounded N xs → other.now ≡ bounded N ys → Decides result (xs ≡ ys) }
    {
        self == other
    }
}
