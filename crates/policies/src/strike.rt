ghost use Rattle.std.specs.Prelude.{◌≡◌, ℕ, ◌<◌, ◌≤◌, true, false, Decides};
ghost use Rattle.authorities.specs.Sets.{no_authorities, in_set};
ghost use Rattle.policies.specs.Uses.{answer_to};
ghost use Rattle.policies.specs.Strikes.{strike_permits};

use crate::kinds::{Question, Strike};
use crate::policy::Policy;

impl<P: Policy> Policy for Strike<P> {
    ghost permits = { λ s. strike_permits (P.Policy.permits s.below) s.struck };

    fn permits(&self, question: &Question<'_>) -> bool
        ensures value { result ≡ answer_to question.now (strike_permits (P.Policy.permits self.now.below) self.now.struck) }
        ensures law { Decides result ((answer_to question.now (P.Policy.permits self.now.below) ≡ true) × (in_set self.now.struck question.now.authority ≡ false)) }
        ensures nothing { self.now.struck ≡ no_authorities → result ≡ answer_to question.now (P.Policy.permits self.now.below) }
        ensures all { ((a : ℕ) → a < 64 → in_set self.now.struck a ≡ true) → (64 ≤ question.now.authority → answer_to question.now (P.Policy.permits self.now.below) ≡ false) → result ≡ false }
        ensures less { answer_to question.now (P.Policy.permits self.now.below) ≡ false → result ≡ false }
    {
        self.below.permits(question) && !self.struck.has(question.authority)
    }
}

#[cfg(test)]
mod tests {
    use super::*;
    use crate::classes::class_of;
    use crate::kinds::{Grant, Grants, Register, Use};
    use authorities::kinds::Authorities;
    use claims::kinds::Environment;
    use std::test::Fail;

    fn ask(authority: u64, usage: Use, class: &[u8]) -> Question<'_> {
        Question {
            authority,
            usage,
            class,
        }
    }

    #[test]
    fn by_the_second_grant(rt: HostRuntime) -> Result<(), Fail> {
        let grants = [
            Grant::new(3, Use::Evidence, b"coin")?,
            Grant::new(3, Use::Reference, b"")?,
        ];
        let policy = Grants { grants: &grants };
        assert_eq!(rt; policy.permits(&ask(3, Use::Evidence, b"coins")), true);
        assert_eq!(rt; policy.permits(&ask(3, Use::Evidence, b"coi")), false);
        assert_eq!(rt;
            policy.permits(&ask(3, Use::Reference, class_of(&Environment::NONE))),
            true
        );
        assert_eq!(rt; policy.permits(&ask(4, Use::Reference, b"coin")), false);
        Ok(())
    }

    #[test]
    fn struck_from_a_lent_register(rt: HostRuntime) {
        let both = Authorities::NONE.with(1).with(2);
        let register = Register::new().with(Use::Endorsement, both);
        let layer = Strike {
            below: &register,
            struck: Authorities::NONE.with(2),
        };
        assert_eq!(rt; layer.permits(&ask(1, Use::Endorsement, b"")), true);
        assert_eq!(rt; layer.permits(&ask(2, Use::Endorsement, b"")), false);
        assert_eq!(rt; layer.permits(&ask(1, Use::Evidence, b"")), false);
        assert_eq!(rt; register.permits(&ask(2, Use::Endorsement, b"")), true);
    }
}
