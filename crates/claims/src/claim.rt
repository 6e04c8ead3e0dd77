ghost use Rattle.std.specs.Prelude.{◌≡◌, true, Decides};
ghost use Rattle.claims.specs.Limits.{Within, stands};
ghost use Rattle.claims.specs.Same.{same_claim, meaning};

use crate::kinds::Claim;

impl Claim {
    // Whether the claim has an environment and a value.
    pub fn stands(&self) -> bool
        ensures { result ≡ stands self.now }
    {
        self.environment.has_field() && self.values.has_value()
    }

    // Whether both are the same claim, by the derived `==`; it stays for the laws it names.
    pub fn is_same(&self, other: &Claim) -> bool
        ensures value { result ≡ same_claim self.now other.now }
        ensures alike { Decides result (self.now ≡ other.now) }
        ensures reflexive { (a : Claim) → same_claim a a ≡ true }
        ensures symmetric { (a b : Claim) → same_claim a b ≡ true → same_claim b a ≡ true }
        ensures transitive { (a b c : Claim) → same_claim a b ≡ true → same_claim b c ≡ true → same_claim a c ≡ true }
        ensures law { Within self.now → Within other.now → Decides result (meaning self.now ≡ meaning other.now) }
    {
        self == other
    }
}
