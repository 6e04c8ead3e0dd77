ghost use Rattle.std.specs.Prelude.{◌≡◌, ℕ, ◌<◌, ◌≤◌, true, false, ◌||◌, length, Decides, ◌≢◌};
ghost use Rattle.std.specs.List.{ContainsAt as Has};
ghost use Rattle.authorities.specs.Sets.{no_authorities, with_authority, in_set, together, covers, members};

use crate::kinds::Authorities;

impl Authorities {
    // The set with one authority more. A number above 63 is no authority, and changes nothing.
    pub fn with(self, authority: u64) -> Authorities
        ensures value { result ≡ with_authority self authority }
        ensures own { authority < 64 → in_set result authority ≡ true }
        ensures others { (a : ℕ) → (a ≢ authority) → in_set result a ≡ in_set self a }
        ensures order { (a : ℕ) → with_authority result a ≡ with_authority (with_authority self a) authority }
        ensures again { with_authority result authority ≡ result }
        ensures covered { (listed : Authorities) → covers self listed ≡ true → covers result listed ≡ true }
    {
        if authority > 63 {
            return self;
        }
        Authorities {
            bits: self.bits | (1 << authority),
        }
    }

    // Whether an authority is in the set. A number above 63 is in none.
    pub fn has(self, authority: u64) -> bool
        ensures value { result ≡ in_set self authority }
        ensures above { 64 ≤ authority → result ≡ false }
        ensures nobody { in_set no_authorities authority ≡ false }
    {
        if authority > 63 {
            return false;
        }
        (self.bits >> authority) & 1 == 1
    }

    // Both sets together.
    pub fn union(self, others: Authorities) -> Authorities
        ensures value { result ≡ together self others }
        ensures law { (a : ℕ) → in_set result a ≡ (in_set self a || in_set others a) }
        ensures covered { (listed : Authorities) → covers self listed ≡ true → covers result listed ≡ true }
    {
        Authorities {
            bits: self.bits | others.bits,
        }
    }

    // Whether every listed authority is in the set.
    pub fn covers(self, listed: Authorities) -> bool
        ensures value { result ≡ covers self listed }
        ensures law { Decides result ((a : ℕ) → in_set listed a ≡ true → in_set self a ≡ true) }
    {
        self.bits & listed.bits == listed.bits
    }

    // How many authorities are in the set.
    pub fn count(self) -> u32
        ensures value { result ≡ length (members self) }
        ensures law { (a : ℕ) → Decides (in_set self a) (Has (members self) a) }
    {
        self.bits.count_ones()
    }
}

#[cfg(test)]
mod tests {
    use super::*;

    #[test]
    fn both_ends(rt: HostRuntime) {
        let ends = Authorities::NONE.with(0).with(63).with(64).with(0);
        assert_eq!(rt; ends.count(), 2);
        assert_eq!(rt; ends.has(63), true);
        assert_eq!(rt; ends.has(64), false);
        assert_eq!(rt; ends.covers(Authorities::NONE.with(63)), true);
        assert_eq!(rt; ends.covers(Authorities::NONE.with(1)), false);
    }
}
