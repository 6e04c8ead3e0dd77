ghost use Rattle.std.specs.Prelude.{◌≡◌, ◌<◌, ◌≤◌, true, false, List, ◌++◌, IfOk, Decides};
ghost use Rattle.std.specs.List.{ContainsAt as Has, AllByRecursion};
ghost use Rattle.policies.specs.Uses.{answer_to};
ghost use Rattle.policies.specs.Grants.{granted, fits, Fits, Wider, grants_permit};

use crate::kinds::{Grant, Grants, Question, Use};
use crate::policy::Policy;
use claims::kinds::Bytes;
use lists::asking::Meets;
use lists::finding::find;
use refusals::Refusal;

impl Grant {
    // A grant. An authority above 63 is refused, and then a beginning of more than 32 bytes.
    pub fn new(authority: u64, usage: Use, beginning: &[u8]) -> Result<Grant, Refusal>
        ensures value { result ≡ granted authority usage beginning.now }
        ensures low { IfOk result (λ g. g.authority < 64) }
    {
        if authority > 63 {
            return Err(Refusal::AuthorityTooHigh);
        }
        let beginning = Bytes::new(beginning, 0).ok_or(Refusal::OutOfLimits(0))?;
        Ok(Grant {
            authority,
            usage,
            beginning,
        })
    }
}

impl<'a> Meets<Question<'a>> for Grant {
    ghost meets = { λ g q. answer_to q (fits g) };

    fn is_met(&self, question: &Question<'a>) -> bool
        ensures value { result ≡ answer_to question.now (fits self.now) }
        ensures law { Decides result (Fits self.now question.now.authority question.now.usage question.now.class.now) }
        ensures shorter { (g : Grant) → Wider g self.now → result ≡ true → answer_to question.now (fits g) ≡ true }
    {
        self.authority == question.authority
            && self.usage == question.usage
            && question.class.starts_with(self.beginning.as_slice())
    }
}

impl<'a> Policy for Grants<'a> {
    ghost permits = { λ s. grants_permit s.grants.now };

    fn permits(&self, question: &Question<'_>) -> bool
        ensures value { result ≡ answer_to question.now (grants_permit self.now.grants.now) }
        ensures law { Decides result ((g : Grant) × Has self.now.grants.now g × Fits g question.now.authority question.now.usage question.now.class.now) }
        ensures more { (before after : List Grant) → result ≡ true → answer_to question.now (grants_permit (before ++ (self.now.grants.now ++ after))) ≡ true }
        ensures above { AllByRecursion (λ g. g.authority < 64) self.now.grants.now → 64 ≤ question.now.authority → result ≡ false }
    {
        find(self.grants, question).is_some()
    }
}
