ghost use Rattle.std.specs.Prelude.{◌≡◌};
ghost use Rattle.parts.specs.Picks.{picked};
ghost use Rattle.refusals.specs.Reading.{keeps};
ghost use Rattle.manifests.specs.Laws.{ReadAsWritten};
ghost use Rattle.manifests.specs.Readings.{counted, triple_at};
ghost use Rattle.manifests.specs.Triples.{triples_of};

use crate::kinds::Triple;
use crate::walks::begin;
use parts::kinds::Pick;
use refusals::Refusal;

// Walks over the triples of a message, counts them, and keeps the one of a number.
fn pick_triple(signer: u64, message: &[u8], wanted: usize) -> Result<Pick<Triple>, Refusal>
    ensures { result ≡ keeps (triples_of signer message.now) (picked wanted) }
{
    let mut walk = begin(signer, message)?;
    let mut pick = Pick {
        seen: 0,
        kept: None,
    };
    // A walk may refuse and go on asking, so it is no iterator.
    while let Some(triple) = walk.next()? {
        pick = pick.note(wanted, triple);
    }
    Ok(pick)
}

// How many triples a manifest has under its signer.
pub fn count(signer: u64, message: &[u8]) -> Result<usize, Refusal>
    ensures value { result ≡ counted signer message.now }
    ensures law { ReadAsWritten signer message.now }
{
    let pick = pick_triple(signer, message, 0)?;
    Ok(pick.seen)
}

// The triple of a number, from 0.
pub fn triple(signer: u64, message: &[u8], n: usize) -> Result<Triple, Refusal>
    ensures value { result ≡ triple_at signer message.now n }
    ensures law { ReadAsWritten signer message.now }
{
    let pick = pick_triple(signer, message, n)?;
    pick.kept.ok_or(Refusal::NoSuchNumber(pick.seen))
}
