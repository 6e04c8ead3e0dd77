ghost use Rattle.std.specs.Prelude.{◌≡◌, Result as Answer};
ghost use Rattle.refusals.specs.declared.Refusal.{Refusal as Turned};
ghost use Rattle.parts.specs.declared.kinds.Read.{Read as Taking};
ghost use Rattle.parts.specs.Parts.{Piece, piece};
ghost use Rattle.parts.specs.Holders.{elements_in};
ghost use Rattle.parts.specs.Reads.{TakenFrom};

use crate::kinds::{Part, Read};
use refusals::Refusal;

// The elements of a holder: each joins what was read before it.
pub trait Elements: Copy {
    ghost element: { Self → Piece → Answer (Taking Self) Turned };

    fn read_element(self, part: Part<'_>) -> Result<Read<Self>, Refusal>
        ensures value { result ≡ element self (piece part.entry) }
        ensures within { TakenFrom (piece part.entry) result };
}

// The elements that fill a part.
pub fn read_elements<E: Elements>(part: Part<'_>, start: E) -> Result<E, Refusal>
    ensures { result ≡ elements_in E.Elements.element start (piece part.entry) }
{
    let mut found = start;
    let mut rest = part;
    // How far an element goes is known when it was read, so this is no iterator.
    while !rest.is_empty() {
        let element = found.read_element(rest)?;
        found = element.value;
        rest = rest.after(element.size);
    }
    Ok(found)
}
