ghost use Rattle.std.specs.Prelude.{◌≡◌};
ghost use Rattle.parts.specs.Parts.{piece};
ghost use Rattle.parts.specs.Reads.{TakenFrom};
ghost use Rattle.measurements.specs.Svns.{svn_tag, svn_under, tagged_svn, svn_at};

use crate::kinds::Svn;
use cbor::items::{take_as, take_item};
use cbor::kinds::Item;
use cbor::scalars::{read_number_to, read_tag};
use parts::kinds::{Part, Read};
use refusals::Refusal;

// Whether a tag may stand before an svn. It is a number here, as it stands in the message; `Svn` is the kind.
fn is_svn_tag(tag: u64, minimum: bool) -> bool
    ensures { result ≡ svn_tag minimum tag }
{
    tag == 552 || (minimum && tag == 553)
}

// The svn of a number behind a tag, which the check above let through.
fn svn_under(tag: u64, number: u64) -> Svn
    ensures { result ≡ svn_under tag number }
{
    if tag == 553 {
        Svn::Minimum(number)
    } else {
        Svn::Exact(number)
    }
}

// A tag and its number: one item, whose place is that of the tag. `minimum`, here and below, is a permission with no value beside it.
fn read_tagged_svn(part: Part<'_>, minimum: bool) -> Result<Read<Svn>, Refusal>
    ensures value { result ≡ tagged_svn minimum (piece part.entry) }
    ensures within { TakenFrom (piece part.entry) result }
{
    let at = part.place();
    let tag = read_tag(part)?;
    if !is_svn_tag(tag.value, minimum) {
        return Err(Refusal::Malformed(at));
    }
    let number = take_as(part.after(tag.size), Item::unsigned).ok_or(Refusal::Malformed(at))?;
    if number.value > 4294967295 {
        return Err(Refusal::OutOfLimits(at));
    }
    let svn = number.map(|number| svn_under(tag.value, number));
    Ok(svn.behind(tag.size))
}

// An svn: a number, or one behind a tag.
pub(crate) fn read_svn(part: Part<'_>, minimum: bool) -> Result<Read<Svn>, Refusal>
    ensures value { result ≡ svn_at minimum (piece part.entry) }
    ensures within { TakenFrom (piece part.entry) result }
{
    let taken = take_item(part).ok_or(Refusal::Malformed(part.place()))?;
    match taken.item {
        Item::Unsigned(_) => Ok(read_number_to(part, 4294967295)?.map(Svn::Exact)),
        Item::Tag(_) => read_tagged_svn(part, minimum),
        _ => Err(Refusal::Malformed(part.place())),
    }
}
