ghost use Rattle.std.specs.Prelude.{◌≡◌, ◌≤◌, IfOk};
ghost use Rattle.std.specs.Option.{ok_or};
ghost use Rattle.refusals.specs.declared.Refusal.TheVariants.{OutOfLimits};
ghost use Rattle.claims.specs.Bytes.{kept_from};
ghost use Rattle.parts.specs.Parts.{piece};
ghost use Rattle.parts.specs.Reads.{TakenFrom, of_size};
ghost use Rattle.cbor.specs.Encodes.{Headed, Number, Truth, String, Tagged};
ghost use Rattle.cbor.specs.Reads.{Reads};
ghost use Rattle.cbor.specs.Scalars.{number_at, number_to, truth_at, array_at, map_at, array_of, text_at, bytes_at, tag_at, tagged_bytes};

use crate::items::{read_as, take_as};
use crate::kinds::Item;
use claims::kinds::Bytes;
use parts::kinds::{Part, Read};
use refusals::Refusal;

// An unsigned number.
#[tactic(auto, using(crate::proofs::Rules::reads_number))]
pub fn read_number(part: Part<'_>) -> Result<Read<u64>, Refusal>
    ensures value { result ≡ number_at (piece part.entry) }
    ensures within { TakenFrom (piece part.entry) result }
    ensures grammar { Reads number_at (Headed 0) }
{
    read_as(part, Item::unsigned)
}

// True or false.
#[tactic(auto, using(crate::proofs::Rules::reads_truth))]
pub fn read_truth(part: Part<'_>) -> Result<Read<bool>, Refusal>
    ensures value { result ≡ truth_at (piece part.entry) }
    ensures within { TakenFrom (piece part.entry) result }
    ensures grammar { Reads truth_at Truth }
{
    read_as(part, Item::truth)
}

// The head of an array: the number of its elements.
pub fn read_array(part: Part<'_>) -> Result<Read<u64>, Refusal>
    ensures value { result ≡ array_at (piece part.entry) }
    ensures within { TakenFrom (piece part.entry) result }
{
    read_as(part, Item::array)
}

// The head of a map: the number of its entries.
pub fn read_map(part: Part<'_>) -> Result<Read<u64>, Refusal>
    ensures value { result ≡ map_at (piece part.entry) }
    ensures within { TakenFrom (piece part.entry) result }
{
    read_as(part, Item::map)
}

// A number of at most `most`.
#[tactic(auto, using(crate::proofs::Rules::reads_number_to))]
pub fn read_number_to(part: Part<'_>, most: u64) -> Result<Read<u64>, Refusal>
    ensures value { result ≡ number_to most (piece part.entry) }
    ensures within { TakenFrom (piece part.entry) result }
    ensures grammar { Reads (number_to most) (Number most) }
    ensures limit { IfOk result (λ x. x.value ≤ most) }
{
    let number = read_number(part)?;
    if number.value > most {
        return Err(Refusal::OutOfLimits(part.place()));
    }
    Ok(number)
}

// The head of an array of exactly `count` elements.
pub fn read_array_of(part: Part<'_>, count: u64) -> Result<Read<u64>, Refusal>
    ensures value { result ≡ array_of count (piece part.entry) }
    ensures within { TakenFrom (piece part.entry) result }
{
    let head = read_array(part)?;
    if head.value != count {
        return Err(Refusal::Malformed(part.place()));
    }
    Ok(head)
}

// The content of a string, kept if it has `least` to N bytes; else the string is refused at a place.
// `Read` is built here and not by `try_map`, as a closure whose result names N gives no proof.
fn keep<const N: usize>(
    string: Read<Part<'_>>,
    least: usize,
    at: usize,
) -> Result<Read<Bytes<N>>, Refusal>
    ensures { result ≡ ok_or (of_size string.entry.size (kept_from N least (piece string.entry.value).bytes)) (OutOfLimits at) }
{
    let value = Bytes::new(string.value.bytes(), least).ok_or(Refusal::OutOfLimits(at))?;
    Ok(Read {
        value,
        size: string.size,
    })
}

// A text of `least` to N bytes. It and `read_bytes` stay two, as a function with both a const and a closure for a parameter gives no proof.
#[tactic(auto, using(crate::proofs::Strings::reads_text))]
pub fn read_text<const N: usize>(part: Part<'_>, least: usize) -> Result<Read<Bytes<N>>, Refusal>
    ensures value { result ≡ text_at N least (piece part.entry) }
    ensures within { TakenFrom (piece part.entry) result }
    ensures grammar { Reads (text_at N least) (String 3 N least) }
{
    let text = read_as(part, Item::text)?;
    keep(text, least, part.place())
}

// A byte string of `least` to N bytes.
#[tactic(auto, using(crate::proofs::Strings::reads_bytes))]
pub fn read_bytes<const N: usize>(part: Part<'_>, least: usize) -> Result<Read<Bytes<N>>, Refusal>
    ensures value { result ≡ bytes_at N least (piece part.entry) }
    ensures within { TakenFrom (piece part.entry) result }
    ensures grammar { Reads (bytes_at N least) (String 2 N least) }
{
    let string = read_as(part, Item::bytes)?;
    keep(string, least, part.place())
}

// A tag.
pub fn read_tag(part: Part<'_>) -> Result<Read<u64>, Refusal>
    ensures value { result ≡ tag_at (piece part.entry) }
    ensures within { TakenFrom (piece part.entry) result }
{
    read_as(part, Item::tag)
}

// A tag around a string of `least` to N bytes: one item, whose place is that of the tag. Which tag is a number, as any of 2^64 may be asked for.
#[tactic(auto, using(crate::proofs::Tags::reads_tagged_bytes))]
pub fn read_tagged_bytes<const N: usize>(
    part: Part<'_>,
    tag: u64,
    least: usize,
) -> Result<Read<Bytes<N>>, Refusal>
    ensures value { result ≡ tagged_bytes tag N least (piece part.entry) }
    ensures within { TakenFrom (piece part.entry) result }
    ensures grammar { Reads (tagged_bytes tag N least) (Tagged tag (String 2 N least)) }
{
    let at = part.place();
    let head = read_tag(part)?;
    if head.value != tag {
        return Err(Refusal::Malformed(at));
    }
    let string = take_as(part.after(head.size), Item::bytes).ok_or(Refusal::Malformed(at))?;
    Ok(keep(string, least, at)?.behind(head.size))
}
