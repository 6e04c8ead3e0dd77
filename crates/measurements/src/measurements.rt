ghost use Rattle.std.specs.Prelude.{◌≡◌};
ghost use Rattle.parts.specs.Parts.{piece};
ghost use Rattle.parts.specs.Reads.{TakenFrom};
ghost use Rattle.conditions.specs.Wanted.{some_wanted};
ghost use Rattle.measurements.specs.Measurements.{measurement_field, measurement_map};

use crate::kinds::{Allowed, InMeasurement};
use crate::listed::read_authorities;
use crate::values::read_values;
use cbor::holders::{Fields, read_map_by};
use cbor::scalars::read_number_to;
use conditions::kinds::Wanted;
use parts::kinds::{Part, Read};
use refusals::Refusal;

impl Fields for InMeasurement {
    ghost under = { measurement_field };

    fn read_under(
        self,
        key: u64,
        at: usize,
        part: Part<'_>,
    ) -> Result<Read<InMeasurement>, Refusal> {
        let wanted = self.wanted;
        let field = match key {
            0 => read_number_to(part, 65535)?.map(|key| Wanted {
                key: Some(key as u16),
                ..wanted
            }),
            1 => read_values(part, self.allowed.minimum, wanted)?,
            2 if self.allowed.authorities => {
                read_authorities(part)?.map(|authorities| Wanted {
                    authorities,
                    ..wanted
                })
            }
            _ => return Err(Refusal::Unknown(at)),
        };
        Ok(field.map(|wanted| InMeasurement { wanted, ..self }))
    }
}

// Whether some value is wanted, be it a minimum.
fn has_value(wanted: &Wanted) -> bool
    ensures { result ≡ some_wanted wanted.now }
{
    wanted.minimum.is_some() || wanted.values.has_value()
}

// A measurement map, which must have values.
pub fn read_measurement(part: Part<'_>, allowed: Allowed) -> Result<Read<Wanted>, Refusal>
    ensures value { result ≡ measurement_map allowed (piece part.entry) }
    ensures within { TakenFrom (piece part.entry) result }
{
    let start = InMeasurement {
        allowed,
        wanted: Wanted::NONE,
    };
    let wanted = read_map_by(part, start)?.map(|fields| fields.wanted);
    if !has_value(&wanted.value) {
        return Err(Refusal::Missing(part.place()));
    }
    Ok(wanted)
}
