ghost use Rattle.std.specs.Prelude.{◌≡◌};
ghost use Rattle.policies.specs.Uses.{Permitted, answer_to};

use crate::kinds::Question;

// A policy: a set of authorities, uses and class identifiers that go together. A missing class identifier counts as no bytes.
pub trait Policy {
    ghost permits: { Self → Permitted };

    // Whether the policy permits that the authority signs for the use, where the class identifier is this.
    fn permits(&self, question: &Question<'_>) -> bool
        ensures { result ≡ answer_to question.now (permits self.now) };
}

// A policy that is lent.
impl<'a, P: Policy> Policy for &'a P {
    ghost permits = { λ p. P.Policy.permits p.now };

    fn permits(&self, question: &Question<'_>) -> bool {
        (**self).permits(question)
    }
}
