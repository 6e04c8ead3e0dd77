ghost use Rattle.std.specs.Prelude.{◌≡◌};
ghost use Rattle.parts.specs.Parts.{piece};
ghost use Rattle.der.specs.Kinds.{holder};
ghost use Rattle.dice.specs.Fields.{IsTagged, tag_of, formed, field_says, field_at, fields_of, info_in};

use crate::digests::read_digests;
use crate::flags::read_flags;
use crate::kinds::{Field, Fields, UnknownTag};
use claims::kinds::Claim;
use der::contents::is_shortest;
use der::items::{take_item, take_sequence};
use der::kinds::{Held, Item};
use parts::holders::{Elements, read_elements};
use parts::kinds::{Part, Read};
use refusals::Refusal;
use refusals::reading::rises;

impl TryFrom<u8> for Field {
    type Error = UnknownTag;

    ghost try_from_gives = { IsTagged };

    // The one place where a tag of a boot record is a number.
    fn try_from(tag: u8) -> Result<Field, UnknownTag> {
        match tag {
            0x80 => Ok(Field::Vendor),
            0x81 => Ok(Field::Model),
            0x82 => Ok(Field::Version),
            0x83 => Ok(Field::Svn),
            0x84 => Ok(Field::Layer),
            0x85 => Ok(Field::Index),
            0xA6 => Ok(Field::Digests),
            0x87 => Ok(Field::Flags),
            0x88 => Ok(Field::Raw),
            0x89 => Ok(Field::Class),
            _ => Err(UnknownTag(tag)),
        }
    }
}

// Whether a content has the form that its field asks for.
fn is_formed(field: Field, content: &[u8]) -> bool
    ensures { result ≡ formed (tag_of field) content.now }
{
    match field {
        Field::Svn | Field::Layer | Field::Index => is_shortest(content),
        Field::Flags => !content.is_empty(),
        _ => true,
    }
}

// The claim with what a field says.
fn read_field(claim: Claim, field: Field, item: Held<'_>) -> Result<Claim, Refusal>
    ensures { result ≡ field_says claim (tag_of field) item.entry.at (piece item.entry.content) }
{
    let mut read = claim;
    match field {
        Field::Vendor => read.environment.vendor = Some(item.read_bytes(1)?),
        Field::Model => read.environment.model = Some(item.read_bytes(1)?),
        Field::Version => read.values.version = Some(item.read_bytes(1)?),
        Field::Svn => read.values.svn = Some(item.read_integer(4294967295)?),
        Field::Layer => read.environment.layer = Some(item.read_integer(65535)? as u16),
        Field::Index => read.environment.index = Some(item.read_integer(65535)? as u16),
        Field::Digests => read.values.digests = read_digests(item)?,
        Field::Flags => read.values.flags = read_flags(item)?,
        Field::Raw => read.values.raw = Some(item.read_bytes(1)?),
        Field::Class => read.environment.class = Some(item.read_bytes(1)?),
    }
    Ok(read)
}

impl Elements for Fields {
    ghost element = { field_at };

    fn read_element(self, part: Part<'_>) -> Result<Read<Fields>, Refusal> {
        let at = part.place();
        let taken = take_item(part).ok_or(Refusal::Malformed(at))?;
        // A pattern, as it takes both values of the case.
        let Item::Field(tag, content) = taken.item else {
            return Err(Refusal::Unknown(at));
        };
        let field = Field::try_from(tag).ok().ok_or(Refusal::Unknown(at))?;
        if !is_formed(field, content.bytes()) {
            return Err(Refusal::Malformed(at));
        }
        let number = u64::from(tag % 32);
        if !rises(self.last, number) {
            return Err(Refusal::Unknown(at));
        }
        let item = Held {
            at,
            content,
            rest: taken.rest,
        };
        let claim = read_field(self.claim, field, item)?;
        Ok(Read {
            value: Fields {
                last: Some(number),
                claim,
            },
            size: part.before(taken.rest),
        })
    }
}

// The fields of a SEQUENCE, behind which nothing follows.
fn read_fields(sequence: Held<'_>) -> Result<Claim, Refusal>
    ensures { result ≡ fields_of sequence.entry.at (holder sequence.entry) }
{
    let start = Fields {
        last: None,
        claim: Claim::NONE,
    };
    let fields = read_elements(sequence.filled()?, start)?;
    sequence.ended()?;
    Ok(fields.claim)
}

// DiceTcbInfo, which fills an OCTET STRING.
pub(crate) fn read_info(octets: Held<'_>) -> Result<Claim, Refusal>
    ensures { result ≡ info_in octets.entry.at (piece octets.entry.content) }
{
    let sequence = take_sequence(octets.filled()?)?;
    read_fields(sequence)
}
