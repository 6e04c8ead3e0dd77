ghost use Rattle.std.specs.Prelude.{◌≡◌};
ghost use Rattle.parts.specs.Parts.{piece};
ghost use Rattle.parts.specs.Reads.{TakenFrom};
ghost use Rattle.measurements.specs.Listed.{authority_at, authority_array};

use crate::kinds::InAuthorities;
use authorities::kinds::Authorities;
use cbor::holders::read_array_by;
use cbor::scalars::read_number;
use parts::holders::Elements;
use parts::kinds::{Part, Read};
use refusals::Refusal;
use refusals::reading::rises;

impl Elements for InAuthorities {
    ghost element = { authority_at };

    fn read_element(self, part: Part<'_>) -> Result<Read<InAuthorities>, Refusal> {
        let number = read_number(part)?;
        if !rises(self.last, number.value) {
            return Err(Refusal::Unknown(part.place()));
        }
        if number.value > 63 {
            return Err(Refusal::OutOfLimits(part.place()));
        }
        Ok(number.map(|number| InAuthorities {
            last: Some(number),
            listed: self.listed.with(number),
        }))
    }
}

// A rising array of authorities.
pub(crate) fn read_authorities(part: Part<'_>) -> Result<Read<Authorities>, Refusal>
    ensures value { result ≡ authority_array (piece part.entry) }
    ensures within { TakenFrom (piece part.entry) result }
{
    let start = InAuthorities {
        last: None,
        listed: Authorities::NONE,
    };
    Ok(read_array_by(part, start)?.map(|array| array.listed))
}
