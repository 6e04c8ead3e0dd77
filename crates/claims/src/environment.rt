ghost use Rattle.std.specs.Prelude.{◌≡◌};
ghost use Rattle.claims.specs.Limits.{some_field};
ghost use Rattle.claims.specs.Same.{same_environment};

use crate::kinds::Environment;

impl Environment {
    // Whether some field is there.
    pub fn has_field(&self) -> bool
        ensures { result ≡ some_field self.now }
    {
        self.class.is_some()
            || self.vendor.is_some()
            || self.model.is_some()
            || self.layer.is_some()
            || self.index.is_some()
            || self.instance.is_some()
    }

    // Whether both are the same environment, by the derived `==`; it stays for the laws it names.
    pub fn is_same(&self, other: &Environment) -> bool
        ensures { result ≡ same_environment self.now other.now }
    {
        self == other
    }
}
