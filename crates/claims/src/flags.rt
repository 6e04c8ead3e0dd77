ghost use Rattle.std.specs.Prelude.{◌≡◌};
ghost use Rattle.claims.specs.Limits.{some_flag};
ghost use Rattle.claims.specs.Same.{same_flags};

use crate::kinds::Flags;

// Whether some flag is known.
pub(crate) fn has_flag(flags: &Flags) -> bool
    ensures { result ≡ some_flag flags.now.states }
{
    flags.states.iter().any(|state| state.is_some())
}

impl Flags {
    // Whether both have the same flags, by the derived `==`; it stays for the laws it names.
    pub fn is_same(&self, other: &Flags) -> bool
        ensures { result ≡ same_flags self.now.states other.now.states }
    {
        self == other
    }
}
