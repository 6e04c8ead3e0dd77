ghost use Rattle.std.specs.Prelude.{◌≡◌, ℕ, ◌<◌, ◌≤◌, length, slice_index};
ghost use Rattle.parts.specs.Parts.{piece};
ghost use Rattle.dice.specs.Flags.{bit_set, true_when_set, flag_of, flags_of, padded, flags_in};

use claims::kinds::Flags;
use der::kinds::Held;
use refusals::Refusal;

// Whether a bit is sent and set.
fn bit_set(content: &[u8], k: usize) -> bool
    ensures { result ≡ bit_set content.now k }
{
    let shift = 7 - k % 8;
    content
        .get(1 + k / 8)
        .is_some_and(|byte| *byte / (1 << shift) % 2 == 1)
}

// The flag of a bit, by the sense of its number.
fn flag_of(content: &[u8], k: usize) -> Option<bool>
    ensures { result ≡ flag_of content.now k }
{
    let set = bit_set(content, k);
    if k == 2 || k == 3 {
        return Some(set);
    }
    Some(!set)
}

// The flags of a content of bits. Four calls by name, as four of ten places is no loop and no map of an array.
fn flags_of(content: &[u8]) -> Flags
    ensures { result ≡ flags_of content.now }
{
    let first = flag_of(content, 0);
    let second = flag_of(content, 1);
    let third = flag_of(content, 2);
    let fourth = flag_of(content, 3);
    Flags {
        states: [
            first, second, third, fourth, None, None, None, None, None, None,
        ],
    }
}

// Whether the unused bits of the last byte are 0.
fn is_padded(content: &[u8]) -> bool
    requires { (0 < length content.now) × (slice_index content.now 0 ≤ 7) }
    ensures { result ≡ padded content.now }
{
    let unused = content[0];
    if content.len() == 1 {
        return unused == 0;
    }
    let last = content[content.len() - 1];
    last % (1 << unused) == 0
}

// A count of unused bits, then 0 to 4 bytes of bits.
pub(crate) fn read_flags(field: Held<'_>) -> Result<Flags, Refusal>
    ensures { result ≡ flags_in field.entry.at (piece field.entry.content).bytes }
{
    let content = field.content.bytes();
    let unused = *content.first().ok_or(Refusal::Malformed(field.at))?;
    if content.len() > 5 || unused > 7 || !is_padded(content) {
        return Err(Refusal::OutOfLimits(field.at));
    }
    Ok(flags_of(content))
}
