ghost use Rattle.std.specs.Prelude.{◌≡◌};
ghost use Rattle.parts.specs.Parts.{piece};
ghost use Rattle.parts.specs.Reads.{TakenFrom};
ghost use Rattle.measurements.specs.Values.{in_values, put_svn, version_field, version_map, values_field, values_map};
ghost use Rattle.conditions.specs.Wanted.{with_values};

use crate::digests::read_digests;
use crate::flags::read_flags;
use crate::kinds::{InValues, InVersion, Svn};
use crate::svns::read_svn;
use cbor::holders::{Fields, read_map_by};
use cbor::scalars::{read_tagged_bytes, read_text};
use claims::kinds::{Bytes, Values};
use conditions::kinds::Wanted;
use parts::kinds::{Part, Read};
use refusals::Refusal;

impl Fields for InVersion {
    ghost under = { version_field };

    fn read_under(self, key: u64, at: usize, part: Part<'_>) -> Result<Read<InVersion>, Refusal> {
        if key != 0 {
            return Err(Refusal::Unknown(at));
        }
        Ok(read_text(part, 1)?.map(|text| InVersion { text: Some(text) }))
    }
}

// A version map.
fn read_version(part: Part<'_>) -> Result<Read<Bytes<32>>, Refusal>
    ensures value { result ≡ version_map (piece part.entry) }
    ensures within { TakenFrom (piece part.entry) result }
{
    read_map_by(part, InVersion { text: None })?
        .try_map(|fields| fields.text)
        .ok_or(Refusal::Missing(part.place()))
}

impl InValues {
    // The same, with other values.
    fn with_values(self, values: Values) -> InValues
        ensures { result ≡ in_values self (with_values self.wanted values) }
    {
        InValues {
            wanted: Wanted {
                values,
                ..self.wanted
            },
            ..self
        }
    }

    // The same, with an svn or a minimum.
    fn with_svn(self, svn: Svn) -> InValues
        ensures { result ≡ put_svn self svn }
    {
        match svn {
            Svn::Exact(svn) => self.with_values(Values {
                svn: Some(svn),
                ..self.wanted.values
            }),
            Svn::Minimum(minimum) => InValues {
                wanted: Wanted {
                    minimum: Some(minimum),
                    ..self.wanted
                },
                ..self
            },
        }
    }
}

impl Fields for InValues {
    ghost under = { values_field };

    fn read_under(self, key: u64, at: usize, part: Part<'_>) -> Result<Read<InValues>, Refusal> {
        let values = self.wanted.values;
        let field = match key {
            0 => read_version(part)?.map(|version| Values {
                version: Some(version),
                ..values
            }),
            1 => return Ok(read_svn(part, self.minimum)?.map(|svn| self.with_svn(svn))),
            2 => read_digests(part)?.map(|digests| Values { digests, ..values }),
            3 => read_flags(part)?.map(|flags| Values { flags, ..values }),
            4 => read_tagged_bytes(part, 560, 1)?.map(|raw| Values {
                raw: Some(raw),
                ..values
            }),
            _ => return Err(Refusal::Unknown(at)),
        };
        Ok(field.map(|values| self.with_values(values)))
    }
}

// A map of values, which adds to what is wanted; a minimum may stand in it or not.
pub(crate) fn read_values(
    part: Part<'_>,
    minimum: bool,
    wanted: Wanted,
) -> Result<Read<Wanted>, Refusal>
    ensures value { result ≡ values_map minimum wanted (piece part.entry) }
    ensures within { TakenFrom (piece part.entry) result }
{
    let fields = read_map_by(part, InValues { minimum, wanted })?;
    Ok(fields.map(|fields| fields.wanted))
}
