ghost use Rattle.std.specs.Prelude.{◌≡◌, ◌+◌, ◌^◌, ◌<◌, Option as Choice};
ghost use Rattle.parts.specs.Reads.{of_size};

use crate::kinds::Read;

impl<T> Read<T> {
    // What was read, put to use.
    pub fn map<U, F: FnOnce(T) -> U>(self, f: F) -> Read<U>
        requires { F.pre f self.value }
        ensures value { F.post f self.value result.value }
        ensures size { result.size ≡ self.size }
    {
        Read {
            value: f(self.value),
            size: self.size,
        }
    }

    // What was read, put to use where it can be.
    pub fn try_map<U, F: FnOnce(T) -> Option<U>>(self, f: F) -> Option<Read<U>>
        requires { F.pre f self.value }
        ensures { (o : Choice U) × F.post f self.value o × (result ≡ of_size self.size o) }
    {
        let read = self.map(f);
        Some(Read {
            value: read.value?,
            size: read.size,
        })
    }

    // The same, together with so many bytes that stand before it.
    pub fn behind(self, before: usize) -> Read<T>
        requires { before + self.size < 2 ^ 64 }
        ensures value { result.value ≡ self.value }
        ensures size { result.size ≡ before + self.size }
    {
        Read {
            value: self.value,
            size: before + self.size,
        }
    }
}
