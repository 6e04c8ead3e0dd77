ghost use Rattle.std.specs.Prelude.{◌≡◌, ℕ, ◌≤◌, length, IfOk, Ok, Result as Answer, nat_lt};
ghost use Rattle.refusals.specs.Reading.{need};
ghost use Rattle.refusals.specs.declared.Refusal.TheVariants.{Missing};
ghost use Rattle.refusals.specs.declared.Refusal.{Refusal as Turned};
ghost use Rattle.parts.specs.declared.kinds.Read.{Read as Taking};
ghost use Rattle.parts.specs.Parts.{Piece, piece};
ghost use Rattle.parts.specs.Reads.{TakenFrom};
ghost use Rattle.cbor.specs.Holders.{counted_from, array_by, entry_at, map_by};

use crate::kinds::Keyed;
use crate::scalars::{read_array, read_map, read_number};
use parts::holders::Elements;
use parts::kinds::{Part, Read};
use refusals::Refusal;
use refusals::reading::rises;

// The fields of a map: each value is read under its key, and joins what was read before it. A key, its place and what follows it go together
// in this one call.
pub trait Fields: Copy {
    ghost under: { Self → ℕ → ℕ → Piece → Answer (Taking Self) Turned };

    fn read_under(self, key: u64, at: usize, part: Part<'_>) -> Result<Read<Self>, Refusal>
        ensures value { result ≡ under self key at (piece part.entry) }
        ensures within { TakenFrom (piece part.entry) result };
}

// So many elements of a part, behind its head.
fn read_counted<E: Elements>(part: Part<'_>, head: Read<u64>, start: E) -> Result<Read<E>, Refusal>
    requires { head.size ≤ length (piece part).bytes }
    ensures value { result ≡ counted_from E.Elements.element head.value start head.size (piece part.entry) }
    ensures within { IfOk result (λ x. (head.size ≤ x.size) × (x.size ≤ length (piece part.entry).bytes)) }
{
    let mut found = Read {
        value: start,
        size: head.size,
    };
    // As often as the message says; no index is used.
    for _ in 0..head.value {
        let element = found.value.read_element(part.after(found.size))?;
        found = element.behind(found.size);
    }
    Ok(found)
}

// The head of an array or a map of a part, which must not be empty.
pub fn filled(head: Read<u64>, part: Part<'_>) -> Result<Read<u64>, Refusal>
    ensures { result ≡ need (nat_lt 0 head.value) (Missing (piece part.entry).at) (Ok head) }
{
    if head.value == 0 {
        return Err(Refusal::Missing(part.place()));
    }
    Ok(head)
}

// An array that is not empty: each element joins what was read before it.
pub fn read_array_by<E: Elements>(part: Part<'_>, start: E) -> Result<Read<E>, Refusal>
    ensures value { result ≡ array_by E.Elements.element start (piece part.entry) }
    ensures within { TakenFrom (piece part.entry) result }
{
    let head = filled(read_array(part)?, part)?;
    read_counted(part, head, start)
}

// An entry of a map is an element: a key above the one before it, and its value.
impl<F: Fields> Elements for Keyed<F> {
    ghost element = { entry_at F.Fields.under };

    fn read_element(self, part: Part<'_>) -> Result<Read<Keyed<F>>, Refusal> {
        let at = part.place();
        let key = read_number(part)?;
        if !rises(self.last, key.value) {
            return Err(Refusal::Unknown(at));
        }
        let value = self.fields.read_under(key.value, at, part.after(key.size))?;
        let entry = value.map(|fields| Keyed {
            last: Some(key.value),
            fields,
        });
        Ok(entry.behind(key.size))
    }
}

// A map that is not empty.
pub fn read_map_by<F: Fields>(part: Part<'_>, start: F) -> Result<Read<F>, Refusal>
    ensures value { result ≡ map_by F.Fields.under start (piece part.entry) }
    ensures within { TakenFrom (piece part.entry) result }
{
    let head = filled(read_map(part)?, part)?;
    let start = Keyed {
        last: None,
        fields: start,
    };
    let entries = read_counted(part, head, start)?;
    Ok(entries.map(|entries| entries.fields))
}
