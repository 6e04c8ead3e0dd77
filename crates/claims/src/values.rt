ghost use Rattle.std.specs.Prelude.{◌≡◌};
ghost use Rattle.claims.specs.Limits.{some_value};
ghost use Rattle.claims.specs.Same.{same_values};

use crate::digests::has_digest;
use crate::flags::has_flag;
use crate::kinds::Values;

impl Values {
    // Whether some value is there.
    pub fn has_value(&self) -> bool
        ensures { result ≡ some_value self.now }
    {
        self.version.is_some()
            || self.svn.is_some()
            || has_digest(&self.digests)
            || has_flag(&self.flags)
            || self.raw.is_some()
    }

    // Whether both are the same values, by the derived `==`; it stays for the laws it names.
    pub fn is_same(&self, other: &Values) -> bool
        ensures { result ≡ same_values self.now other.now }
    {
        self == other
    }
}
