ghost use Rattle.std.specs.Prelude.{◌≡◌};
ghost use Rattle.parts.specs.Parts.{piece};
ghost use Rattle.parts.specs.Reads.{TakenFrom};
ghost use Rattle.measurements.specs.Digests.{algorithm_at, digest_bytes, digest_pair, digest_at, digest_array};

use crate::kinds::InDigests;
use cbor::holders::read_array_by;
use cbor::items::read_as;
use cbor::kinds::Item;
use cbor::scalars::{read_array_of, read_number};
use claims::kinds::{Algorithm, Digests};
use parts::holders::Elements;
use parts::kinds::{Part, Read};
use refusals::Refusal;

// The number of an algorithm that did not come before.
fn read_algorithm(part: Part<'_>, digests: Digests) -> Result<Read<Algorithm>, Refusal>
    ensures value { result ≡ algorithm_at digests (piece part.entry) }
    ensures within { TakenFrom (piece part.entry) result }
{
    let number = read_number(part)?;
    let algorithm = Algorithm::try_from(number.value)
        .ok()
        .ok_or(Refusal::Unknown(part.place()))?;
    if digests.has(algorithm) {
        return Err(Refusal::Unknown(part.place()));
    }
    Ok(number.map(|_| algorithm))
}

// The bytes of a digest, as many as its algorithm makes.
fn read_digest(
    part: Part<'_>,
    digests: Digests,
    algorithm: Algorithm,
) -> Result<Read<Digests>, Refusal>
    ensures value { result ≡ digest_bytes digests algorithm (piece part.entry) }
    ensures within { TakenFrom (piece part.entry) result }
{
    read_as(part, Item::bytes)?
        .try_map(|content| digests.with(algorithm, content.bytes()))
        .ok_or(Refusal::OutOfLimits(part.place()))
}

// An algorithm and its digest.
fn read_pair(part: Part<'_>, digests: Digests) -> Result<Read<Digests>, Refusal>
    ensures value { result ≡ digest_pair digests (piece part.entry) }
    ensures within { TakenFrom (piece part.entry) result }
{
    let head = read_array_of(part, 2)?;
    let pair = part.after(head.size);
    let algorithm = read_algorithm(pair, digests)?;
    let digest = read_digest(pair.after(algorithm.size), digests, algorithm.value)?;
    Ok(digest.behind(algorithm.size).behind(head.size))
}

impl Elements for InDigests {
    ghost element = { digest_at };

    fn read_element(self, part: Part<'_>) -> Result<Read<InDigests>, Refusal> {
        Ok(read_pair(part, self.digests)?.map(|digests| InDigests { digests }))
    }
}

// An array of digests, in any order.
pub(crate) fn read_digests(part: Part<'_>) -> Result<Read<Digests>, Refusal>
    ensures value { result ≡ digest_array (piece part.entry) }
    ensures within { TakenFrom (piece part.entry) result }
{
    let start = InDigests {
        digests: Digests::NONE,
    };
    Ok(read_array_by(part, start)?.map(|array| array.digests))
}
