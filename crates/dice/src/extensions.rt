ghost use Rattle.std.specs.Prelude.{◌≡◌};
ghost use Rattle.parts.specs.Parts.{piece};
ghost use Rattle.dice.specs.Extensions.{ueid_in, held_by, again, extension_value, after_name, extension_parts, extension_at};

use crate::fields::read_info;
use crate::kinds::{Extension, Extensions};
use crate::names::extension_of;
use claims::kinds::Bytes;
use der::items::{skip_boolean, take_identifier, take_octets, take_sequence};
use der::kinds::Held;
use parts::holders::Elements;
use parts::kinds::{Part, Read};
use refusals::Refusal;

// DiceUeid, which fills an OCTET STRING: a SEQUENCE of one OCTET STRING, the instance.
fn read_ueid(octets: Held<'_>) -> Result<Bytes<33>, Refusal>
    ensures { result ≡ ueid_in octets.entry.at (piece octets.entry.content) }
{
    let sequence = take_sequence(octets.filled()?)?;
    let value = take_octets(sequence.filled()?)?;
    let instance = value.read_bytes(7)?;
    value.ended()?;
    sequence.ended()?;
    Ok(instance)
}

impl Extensions {
    // Whether an extension that is read came already.
    fn has(&self, name: Extension) -> bool
        ensures { result ≡ again name self.now }
    {
        match name {
            Extension::TcbInfo => self.info.is_some(),
            Extension::Ueid => self.instance.is_some(),
            Extension::Other => false,
        }
    }

    // With what an OCTET STRING holds.
    fn read_held(self, name: Extension, octets: Held<'_>) -> Result<Extensions, Refusal>
        ensures { result ≡ held_by name self octets.entry.at (piece octets.entry.content) }
    {
        match name {
            Extension::TcbInfo => Ok(Extensions {
                info: Some(read_info(octets)?),
                ..self
            }),
            Extension::Ueid => Ok(Extensions {
                instance: Some(read_ueid(octets)?),
                ..self
            }),
            Extension::Other => Ok(self),
        }
    }

    // With the OCTET STRING, which fills what is left of an extension.
    fn read_value(self, name: Extension, extension: Held<'_>) -> Result<Extensions, Refusal>
        ensures { result ≡ extension_value name self extension.entry.at (piece extension.entry.content) }
    {
        let value = take_octets(extension.filled()?)?;
        let found = self.read_held(name, value)?;
        value.ended()?;
        Ok(found)
    }

    // With what follows the object identifier: perhaps a BOOLEAN, and the OCTET STRING.
    fn read_after_name(self, name: Extension, extension: Held<'_>) -> Result<Extensions, Refusal>
        ensures { result ≡ after_name name self extension.entry.at (piece extension.entry.content) }
    {
        let left = Held {
            content: skip_boolean(extension.filled()?)?,
            ..extension
        };
        self.read_value(name, left)
    }

    // With the parts of an extension.
    fn read_parts(self, extension: Held<'_>) -> Result<Extensions, Refusal>
        ensures { result ≡ extension_parts self extension.entry.at (piece extension.entry.content) }
    {
        let identifier = take_identifier(extension.filled()?)?;
        let name = extension_of(identifier.content.bytes());
        if self.has(name) {
            return Err(Refusal::Unknown(extension.at));
        }
        let left = Held {
            content: identifier.rest,
            ..extension
        };
        self.read_after_name(name, left)
    }
}

impl Elements for Extensions {
    ghost element = { extension_at };

    fn read_element(self, part: Part<'_>) -> Result<Read<Extensions>, Refusal> {
        let sequence = take_sequence(part)?;
        let value = self.read_parts(sequence)?;
        Ok(Read {
            value,
            size: part.before(sequence.rest),
        })
    }
}
