ghost use Rattle.std.specs.Prelude.{◌≡◌};
ghost use Rattle.parts.specs.Parts.{piece};
ghost use Rattle.parts.specs.Reads.{TakenFrom};
ghost use Rattle.measurements.specs.Flags.{flag_field, flag_map};

use crate::kinds::InFlags;
use cbor::holders::{Fields, read_map_by};
use cbor::scalars::read_truth;
use claims::kinds::Flags;
use parts::kinds::{Part, Read};
use refusals::Refusal;

impl Fields for InFlags {
    ghost under = { flag_field };

    fn read_under(self, key: u64, at: usize, part: Part<'_>) -> Result<Read<InFlags>, Refusal> {
        if key > 9 {
            return Err(Refusal::Unknown(at));
        }
        let flag = read_truth(part)?;
        let mut states = self.flags.states;
        states[key as usize] = Some(flag.value);
        Ok(flag.map(|_| InFlags {
            flags: Flags { states },
        }))
    }
}

// A map of flags.
pub(crate) fn read_flags(part: Part<'_>) -> Result<Read<Flags>, Refusal>
    ensures value { result ≡ flag_map (piece part.entry) }
    ensures within { TakenFrom (piece part.entry) result }
{
    let fields = read_map_by(part, InFlags { flags: Flags::NONE })?;
    Ok(fields.map(|fields| fields.flags))
}
