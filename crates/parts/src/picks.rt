ghost use Rattle.std.specs.Prelude.{◌≡◌};
ghost use Rattle.parts.specs.Picks.{noted};

use crate::kinds::Pick;

impl<T: Copy> Pick<T> {
    // One more comes by; it is kept if it has the number `wanted`, from 0.
    pub fn note(self, wanted: usize, member: T) -> Pick<T>
        ensures { result ≡ noted wanted self member }
    {
        Pick {
            seen: self.seen.saturating_add(1),
            kept: if self.seen == wanted {
                Some(member)
            } else {
                self.kept
            },
        }
    }
}
