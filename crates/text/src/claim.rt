ghost use Rattle.std.specs.Prelude.{◌≡◌, false, Some, string_bytes};
ghost use Rattle.std.specs.Option.{option_map};
ghost use Rattle.claims.specs.Bytes.{content};
ghost use Rattle.text.specs.Claims.{field_text, environment_text, digests_text, flags_from, values_text, claim_text};
ghost use Rattle.script.specs.Texts.{Appends};

use claims::kinds::{Bytes, Claim, Digests, Environment, Values};
use script::hex::Hex;
use std::alloc::AllocError;
use std::fmt;

// A field under its label, where it is there.
#[derive(Clone, Copy)]
struct Field<'a, T>(&'a str, Option<T>);

impl<T: fmt::Display> fmt::Display for Field<'_, T> {
    ghost output = { λ field. field_text T.output field.0.now field.1 };

    fn fmt<W: fmt::Write>(&self, f: &mut fmt::Formatter<W>) -> fmt::Result {
        let label = self.0;
        match &self.1 {
            Some(value) => write!(f, "{label}{value}"),
            None => Ok(()),
        }
    }
}

// A byte string as it prints.
fn hex<const N: usize>(field: &Option<Bytes<N>>) -> Option<Hex<'_>>
    ensures { option_map (λ hex. hex.0.now) result ≡ option_map content field.now }
{
    Some(Hex(field.as_ref()?.as_slice()))
}

// The fields of an environment.
#[derive(Clone, Copy)]
struct EnvironmentText<'a>(&'a Environment);

impl fmt::Display for EnvironmentText<'_> {
    ghost output = { λ environment. Some (environment_text environment.0.now) };

    fn fmt<W: fmt::Write>(&self, f: &mut fmt::Formatter<W>) -> fmt::Result {
        let environment = self.0;
        let class = Field(" class=", hex(&environment.class));
        let vendor = Field(" vendor=", hex(&environment.vendor));
        let model = Field(" model=", hex(&environment.model));
        let layer = Field(" layer=", environment.layer);
        let index = Field(" index=", environment.index);
        let instance = Field(" instance=", hex(&environment.instance));
        write!(f, "{class}{vendor}{model}{layer}{index}{instance}")
    }
}

// The digests.
#[derive(Clone, Copy)]
struct DigestsText<'a>(&'a Digests);

impl fmt::Display for DigestsText<'_> {
    ghost output = { λ digests. Some (digests_text digests.0.now) };

    fn fmt<W: fmt::Write>(&self, f: &mut fmt::Formatter<W>) -> fmt::Result {
        let digests = self.0;
        let sha256 = Field(" digest1=", hex(&digests.sha256));
        let sha384 = Field(" digest7=", hex(&digests.sha384));
        let sha512 = Field(" digest8=", hex(&digests.sha512));
        write!(f, "{sha256}{sha384}{sha512}")
    }
}

// The known flags, by number.
#[derive(Clone, Copy)]
struct FlagsText<'a>(&'a [Option<bool>]);

impl fmt::Display for FlagsText<'_> {
    ghost output = { λ flags. Some (flags_from false 0 flags.0.now) };

    fn fmt<W: fmt::Write>(&self, f: &mut fmt::Formatter<W>) -> fmt::Result {
        let mut lead = " flags=";
        for (number, state) in self.0.iter().enumerate() {
            if let Some(state) = state {
                write!(f, "{lead}{number}:{state}")?;
                lead = ",";
            }
        }
        Ok(())
    }
}

// The values.
#[derive(Clone, Copy)]
struct ValuesText<'a>(&'a Values);

impl fmt::Display for ValuesText<'_> {
    ghost output = { λ values. Some (values_text values.0.now) };

    fn fmt<W: fmt::Write>(&self, f: &mut fmt::Formatter<W>) -> fmt::Result {
        let values = self.0;
        let version = Field(" version=", hex(&values.version));
        let svn = Field(" svn=", values.svn);
        let digests = DigestsText(&values.digests);
        let flags = FlagsText(&values.flags.states);
        let raw = Field(" raw=", hex(&values.raw));
        write!(f, "{version}{svn}{digests}{flags}{raw}")
    }
}

// A claim as it prints: the fields that are there, each after a space.
#[derive(Clone, Copy)]
pub struct ClaimText<'a>(pub &'a Claim);

impl fmt::Display for ClaimText<'_> {
    ghost output = { λ claim. Some (claim_text claim.0.now) };

    fn fmt<W: fmt::Write>(&self, f: &mut fmt::Formatter<W>) -> fmt::Result {
        let claim = self.0;
        let environment = EnvironmentText(&claim.environment);
        let key = Field(" key=", claim.key);
        let values = ValuesText(&claim.values);
        write!(f, "{environment}{key}{values}")
    }
}

// Appends the fields of a claim that are there, each after a space. One `write!` of what prints.
pub fn push_claim(out: &mut String, claim: &Claim) -> Result<(), AllocError>
    ensures { Appends result (string_bytes out.old) (string_bytes out.new) (claim_text claim.now) }
{
    write!(out, "{}", ClaimText(claim))
}

#[cfg(test)]
mod tests {
    use super::*;
    use crate::refusal::push_refusal;
    use claims::kinds::Flags;
    use refusals::Refusal;
    use std::test::Fail;

    #[test]
    fn writes_a_claim(rt: HostRuntime) -> Result<(), Fail> {
        let mut states = [None; 10];
        states[0] = Some(true);
        states[3] = Some(false);
        let claim = Claim {
            environment: Environment {
                class: Bytes::new(&[171], 1),
                vendor: None,
                model: None,
                layer: Some(3),
                index: None,
                instance: None,
            },
            key: Some(0),
            values: Values {
                version: None,
                svn: Some(2),
                digests: Digests::NONE,
                flags: Flags { states },
                raw: Bytes::new(&[], 0),
            },
        };
        let mut out = String::new(rt.alloc());
        push_claim(&mut out, &claim)?;
        assert_eq!(rt;
            out.as_str(),
            " class=AB layer=3 key=0 svn=2 flags=0:true,3:false raw=-"
        );
        Ok(())
    }

    #[test]
    fn writes_a_refusal(rt: HostRuntime) -> Result<(), Fail> {
        let mut out = String::new(rt.alloc());
        push_refusal(&mut out, Refusal::Malformed(17))?;
        assert_eq!(rt; out.as_str(), "refused: 5 item at 17");
        Ok(())
    }
}
