ghost use Rattle.std.specs.Prelude.{◌≡◌, ℕ, ◌+◌, ◌≤◌, length, IfSome, IfOk};
ghost use Rattle.std.specs.Option.{option_map};
ghost use Rattle.parts.specs.Parts.{piece};
ghost use Rattle.spdm.specs.Blocks.{block_of, parts};
ghost use Rattle.spdm.specs.Claims.{svn_of, values_of, claim_of};
ghost use Rattle.spdm.specs.Rows.{entry_of, block_at};

use crate::kinds::{BlockRef, Entry, Row, Setup};
use claims::kinds::{Algorithm, Bytes, Claim, Digests, Environment, Values};
use parts::holders::Elements;
use parts::kinds::{Part, Read};
use refusals::Refusal;
use refusals::reading::rises;

// The block at the beginning of some bytes, where a whole one stands there.
fn first_block(bytes: &[u8]) -> Option<BlockRef<'_>>
    ensures value { option_map parts result ≡ block_of bytes.now }
    ensures within { IfSome result (λ b. 7 + length b.value.now ≤ length bytes.now) }
{
    let [
        index,
        specification,
        size_low,
        size_high,
        kind,
        value_low,
        value_high,
        rest @ ..,
    ] = bytes
    else {
        return None;
    };
    let size = usize::from(u16::from_le_bytes([*size_low, *size_high]));
    let value_size = usize::from(u16::from_le_bytes([*value_low, *value_high]));
    if size != value_size + 3 || value_size > rest.len() {
        return None;
    }
    Some(BlockRef {
        index: *index,
        specification: *specification,
        kind: *kind,
        value: &rest[0..value_size],
    })
}

// A security version number in eight bytes, low byte first.
fn svn_of(value: &[u8]) -> Option<u64>
    ensures { result ≡ svn_of value.now }
{
    // A pattern, as it names the eight bytes that the number is made of; with `try_from` in its place the proof did not close.
    let [a, b, c, d, e, f, g, h] = value else {
        return None;
    };
    let svn = u64::from_le_bytes([*a, *b, *c, *d, *e, *f, *g, *h]);
    if svn > 4294967295 {
        return None;
    }
    Some(svn)
}

// What a value says by its type, which is a number here as it stands in the message.
fn values_of(algorithm: Algorithm, kind: u8, value: &[u8]) -> Option<Values>
    ensures { result ≡ values_of algorithm kind value.now }
{
    match kind {
        0x00..=0x04 => Some(Values {
            digests: Digests::NONE.with(algorithm, value)?,
            ..Values::NONE
        }),
        0x80..=0x84 => Some(Values {
            raw: Some(Bytes::new(value, 1)?),
            ..Values::NONE
        }),
        0x87 => Some(Values {
            svn: Some(svn_of(value)?),
            ..Values::NONE
        }),
        _ => None,
    }
}

// The claim of a block, where it keeps its limits.
fn claim_of(setup: &Setup, block: &BlockRef) -> Option<Claim>
    ensures { result ≡ claim_of setup.now (parts block.now) }
{
    if block.index < 1 || block.index > 239 || block.specification != 0x01 {
        return None;
    }
    let values = values_of(setup.algorithm, block.kind, block.value)?;
    Some(Claim {
        environment: Environment {
            class: Some(setup.class),
            ..Environment::NONE
        },
        key: Some(u16::from(block.index)),
        values,
    })
}

// What the block at the beginning of a part gives, which stands behind a block of the index `last`.
pub fn read_entry(setup: &Setup, last: Option<u64>, part: Part<'_>) -> Result<Entry, Refusal>
    ensures value { result ≡ entry_of setup.now last (piece part.entry).at (piece part.entry).bytes }
    ensures within { IfOk result (λ e. (7 ≤ e.size) × (e.size ≤ length (piece part.entry).bytes)) }
{
    let at = part.place();
    let block = first_block(part.bytes()).ok_or(Refusal::Malformed(at))?;
    let index = u64::from(block.index);
    if !rises(last, index) {
        return Err(Refusal::Unknown(at));
    }
    // A pattern and not `ok_or`, which copies the claim for each block.
    let Some(claim) = claim_of(setup, &block) else {
        return Err(Refusal::OutOfLimits(at));
    };
    Ok(Entry {
        index,
        size: 7 + block.value.len(),
        claim,
    })
}

impl Elements for Row {
    ghost element = { block_at };

    fn read_element(self, part: Part<'_>) -> Result<Read<Row>, Refusal> {
        let entry = read_entry(&self.setup, self.last, part)?;
        Ok(Read {
            value: Row {
                last: Some(entry.index),
                pick: self.pick.note(self.wanted, entry.claim),
                ..self
            },
            size: entry.size,
        })
    }
}
