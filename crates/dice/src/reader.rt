ghost use Rattle.std.specs.Prelude.{◌≡◌, ℕ, Bool};
ghost use Rattle.evidence.specs.Readings.{counted, claim_at};
ghost use Rattle.der.specs.Kinds.{holder};
ghost use Rattle.dice.specs.Laws.{ReadAsCarried, Adding, FlagsBySense};
ghost use Rattle.dice.specs.Messages.{on_instance, claim_told, message_of, reading};
ghost use Rattle.dice.specs.Limits.{keeps_limits, refuses_as_reader};

use crate::kinds::{Dice, Extensions};
use claims::kinds::{Bytes, Claim, Environment};
use der::items::take_sequence;
use der::kinds::Held;
use evidence::Format;
use parts::holders::read_elements;
use parts::kinds::Part;
use refusals::Refusal;

// The claim of DiceTcbInfo, on the instance of DiceUeid where there is one.
fn on_instance(claim: Claim, instance: Option<Bytes<33>>) -> Claim
    ensures { result ≡ on_instance claim instance }
{
    Claim {
        environment: Environment {
            instance: instance.or(claim.environment.instance),
            ..claim.environment
        },
        ..claim
    }
}

// The claim that the extensions of a SEQUENCE told, behind which nothing follows; it must have an environment and a value.
fn claim_told(found: Extensions, sequence: Held<'_>) -> Result<Claim, Refusal>
    ensures { result ≡ claim_told found (holder sequence.entry) }
{
    let info = found.info.ok_or(Refusal::Missing(0))?;
    sequence.ended()?;
    let claim = on_instance(info, found.instance);
    if !claim.stands() {
        return Err(Refusal::Missing(0));
    }
    Ok(claim)
}

// The claim of a message.
fn read_message(message: &[u8]) -> Result<Claim, Refusal>
    ensures { result ≡ message_of message.now }
{
    let sequence = take_sequence(Part::whole(message))?;
    let start = Extensions {
        info: None,
        instance: None,
    };
    let found = read_elements(sequence.filled()?, start)?;
    claim_told(found, sequence)
}

impl Format for Dice {
    ghost reads = { λ _. reading };

    ghost limits = { λ format message. keeps_limits message };

    ghost refusals = { λ format message. refuses_as_reader message };

    #[tactic(auto, using(crate::proofs::Proved::carried))]
    fn count(&self, message: &[u8]) -> Result<usize, Refusal>
        ensures value { result ≡ counted (reading message.now) }
        ensures carried { ReadAsCarried message.now }
    {
        read_message(message)?;
        Ok(1)
    }

    #[tactic(auto, using(crate::proofs::Proved::carried, crate::proofs::Added::adding, crate::proofs::Added::flags_by_sense))]
    fn claim(&self, message: &[u8], n: usize) -> Result<Claim, Refusal>
        ensures value { result ≡ claim_at (reading message.now) n }
        ensures carried { ReadAsCarried message.now }
        ensures adding { Adding }
        ensures flags { FlagsBySense }
    {
        let claim = read_message(message)?;
        if n > 0 {
            return Err(Refusal::NoSuchNumber(1));
        }
        Ok(claim)
    }
}

#[cfg(test)]
mod tests {
    use crate::kinds::Dice;
    use evidence::Format;
    use refusals::Refusal;
    use std::test::Fail;

    #[test]
    fn boot_record(rt: HostRuntime) -> Result<(), Fail> {
        let message =
            b"\x30\x17\x30\x15\x06\x06\x67\x81\x05\x05\x04\x01\x04\x0B\x30\x09\x83\x01\x02\x89\x04coin";
        assert_eq!(rt; Dice.count(message)?, 1);
        assert_eq!(rt; Dice.claim(message, 0)?.values.svn, Some(2));
        let Err(beyond) = Dice.claim(message, 1) else {
            return Err(Fail::new("a second claim"));
        };
        assert_eq!(rt; beyond, Refusal::NoSuchNumber(1));
        Ok(())
    }
}
