ghost use Rattle.std.specs.Prelude.{◌≡◌};
ghost use Rattle.policies.specs.Uses.{class_of};

use claims::kinds::Environment;

// The class identifier that an environment is asked by: a missing one counts as no bytes.
pub fn class_of(environment: &Environment) -> &[u8]
    ensures { result.now ≡ class_of environment.now }
{
    environment
        .class
        .as_ref()
        .map_or(b"", |class| class.as_slice())
}
