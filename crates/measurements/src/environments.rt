ghost use Rattle.std.specs.Prelude.{◌≡◌};
ghost use Rattle.parts.specs.Parts.{piece};
ghost use Rattle.parts.specs.Reads.{TakenFrom};
ghost use Rattle.measurements.specs.Environments.{class_field, class_map, environment_field, environment_map};

use crate::kinds::{InClass, InEnvironment};
use cbor::holders::{Fields, read_map_by};
use cbor::scalars::{read_number_to, read_tagged_bytes, read_text};
use claims::kinds::Environment;
use parts::kinds::{Part, Read};
use refusals::Refusal;

impl Fields for InClass {
    ghost under = { class_field };

    fn read_under(self, key: u64, at: usize, part: Part<'_>) -> Result<Read<InClass>, Refusal> {
        let environment = self.environment;
        let field = match key {
            0 => read_tagged_bytes(part, 560, 1)?.map(|class| Environment {
                class: Some(class),
                ..environment
            }),
            1 => read_text(part, 1)?.map(|vendor| Environment {
                vendor: Some(vendor),
                ..environment
            }),
            2 => read_text(part, 1)?.map(|model| Environment {
                model: Some(model),
                ..environment
            }),
            3 => read_number_to(part, 65535)?.map(|layer| Environment {
                layer: Some(layer as u16),
                ..environment
            }),
            4 => read_number_to(part, 65535)?.map(|index| Environment {
                index: Some(index as u16),
                ..environment
            }),
            _ => return Err(Refusal::Unknown(at)),
        };
        Ok(field.map(|environment| InClass { environment }))
    }
}

// A class map, which adds to an environment.
fn read_class(part: Part<'_>, environment: Environment) -> Result<Read<Environment>, Refusal>
    ensures value { result ≡ class_map environment (piece part.entry) }
    ensures within { TakenFrom (piece part.entry) result }
{
    let fields = read_map_by(part, InClass { environment })?;
    Ok(fields.map(|fields| fields.environment))
}

impl Fields for InEnvironment {
    ghost under = { environment_field };

    fn read_under(
        self,
        key: u64,
        at: usize,
        part: Part<'_>,
    ) -> Result<Read<InEnvironment>, Refusal> {
        let environment = self.environment;
        let field = match key {
            0 => read_class(part, environment)?,
            1 => read_tagged_bytes(part, 550, 7)?.map(|instance| Environment {
                instance: Some(instance),
                ..environment
            }),
            _ => return Err(Refusal::Unknown(at)),
        };
        Ok(field.map(|environment| InEnvironment { environment }))
    }
}

// An environment map.
pub fn read_environment(part: Part<'_>) -> Result<Read<Environment>, Refusal>
    ensures value { result ≡ environment_map (piece part.entry) }
    ensures within { TakenFrom (piece part.entry) result }
{
    let start = InEnvironment {
        environment: Environment::NONE,
    };
    let fields = read_map_by(part, start)?;
    Ok(fields.map(|fields| fields.environment))
}
