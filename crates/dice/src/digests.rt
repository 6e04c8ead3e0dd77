ghost use Rattle.std.specs.Prelude.{◌≡◌, ℕ};
ghost use Rattle.parts.specs.Parts.{piece};
ghost use Rattle.dice.specs.Digests.{digest_value, digest_parts, digest_at, digests_in};

use crate::kinds::Gathered;
use crate::names::algorithm_named;
use claims::kinds::{Algorithm, Digests};
use der::items::{take_identifier, take_octets, take_sequence};
use der::kinds::Held;
use parts::holders::{Elements, read_elements};
use parts::kinds::{Part, Read};
use refusals::Refusal;

// The OCTET STRING of a digest, which fills what is left of its SEQUENCE.
fn read_value(
    digests: Digests,
    algorithm: Algorithm,
    sequence: Held<'_>,
) -> Result<Digests, Refusal>
    ensures { result ≡ digest_value digests algorithm sequence.entry.at (piece sequence.entry.content) }
{
    let value = take_octets(sequence.filled()?)?;
    let with = digests.with(algorithm, value.content.bytes());
    let digests = with.ok_or(Refusal::OutOfLimits(value.at))?;
    value.ended()?;
    Ok(digests)
}

// The object identifier of an algorithm that did not come before, and the digest.
fn read_parts(digests: Digests, sequence: Held<'_>) -> Result<Digests, Refusal>
    ensures { result ≡ digest_parts digests sequence.entry.at (piece sequence.entry.content) }
{
    let name = take_identifier(sequence.filled()?)?;
    let named = algorithm_named(name.content.bytes());
    let algorithm = named.ok_or(Refusal::Unknown(name.at))?;
    if digests.has(algorithm) {
        return Err(Refusal::Unknown(name.at));
    }
    let left = Held {
        content: name.rest,
        ..sequence
    };
    read_value(digests, algorithm, left)
}

impl Elements for Gathered {
    ghost element = { digest_at };

    fn read_element(self, part: Part<'_>) -> Result<Read<Gathered>, Refusal> {
        let sequence = take_sequence(part)?;
        let digests = read_parts(self.digests, sequence)?;
        Ok(Read {
            value: Gathered { digests },
            size: part.before(sequence.rest),
        })
    }
}

// The digests of a field.
pub(crate) fn read_digests(field: Held<'_>) -> Result<Digests, Refusal>
    ensures { result ≡ digests_in field.entry.at (piece field.entry.content) }
{
    let start = Gathered {
        digests: Digests::NONE,
    };
    let gathered = read_elements(field.filled()?, start)?;
    Ok(gathered.digests)
}
