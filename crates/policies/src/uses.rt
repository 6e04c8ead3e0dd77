ghost use Rattle.std.specs.Prelude.{◌≡◌};
ghost use Rattle.policies.specs.Uses.{number_of};

use crate::kinds::Use;

// The number of a use.
impl From<Use> for u64 {
    ghost from_gives = { λ usage r. r ≡ number_of usage };

    fn from(usage: Use) -> u64 {
        match usage {
            Use::Evidence => 0,
            Use::Reference => 1,
            Use::Endorsement => 2,
        }
    }
}
