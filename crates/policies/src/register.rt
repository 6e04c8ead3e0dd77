ghost use Rattle.std.specs.Prelude.{◌≡◌, ℕ, ◌≤◌, false, ◌&&◌, ◌||◌, List};
ghost use Rattle.authorities.specs.Sets.{in_set};
ghost use Rattle.policies.specs.Uses.{answer_to, same_use};
ghost use Rattle.policies.specs.Registers.{no_register, register_with, register_permits};

use crate::kinds::{Question, Register, Use};
use crate::policy::Policy;
use authorities::kinds::Authorities;

impl Register {
    // The register that permits nobody.
    pub fn new() -> Register
        ensures value { result ≡ no_register }
        ensures nobody { (a : ℕ) (u : Use) (c : List ℕ) → register_permits result a u c ≡ false }
    {
        Register {
            evidence: Authorities::NONE,
            reference: Authorities::NONE,
            endorsement: Authorities::NONE,
        }
    }

    // The register with more authorities for a use.
    pub fn with(self, usage: Use, more: Authorities) -> Register
        ensures value { result ≡ register_with self usage more }
        ensures law { (a : ℕ) (u : Use) (c : List ℕ) → register_permits result a u c ≡ (register_permits self a u c || (same_use usage u && in_set more a)) }
    {
        match usage {
            Use::Evidence => Register {
                evidence: self.evidence.union(more),
                ..self
            },
            Use::Reference => Register {
                reference: self.reference.union(more),
                ..self
            },
            Use::Endorsement => Register {
                endorsement: self.endorsement.union(more),
                ..self
            },
        }
    }
}

impl Policy for Register {
    ghost permits = { register_permits };

    fn permits(&self, question: &Question<'_>) -> bool
        ensures value { result ≡ answer_to question.now (register_permits self.now) }
        ensures above { 64 ≤ question.now.authority → result ≡ false }
    {
        let signers = match question.usage {
            Use::Evidence => self.evidence,
            Use::Reference => self.reference,
            Use::Endorsement => self.endorsement,
        };
        signers.has(question.authority)
    }
}
