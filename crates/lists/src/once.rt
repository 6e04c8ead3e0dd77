ghost use Rattle.std.specs.Prelude.{◌≡◌, length, take};
ghost use Rattle.lists.specs.Once.{stored_once, places_once, Once};

use crate::asking::Same;
use crate::finding::find;
use crate::stored::Stored;

// Stores x once among the first `count` places: where one stands that is the same, nothing changes; else x is put behind them.
// None where there is no place for it. A count beyond the last place is taken for all places.
// A count beside a slice, as the memory is lent and never grows.
pub fn store_once<E: Same + Copy>(places: &mut [E], count: usize, x: E) -> Option<Stored>
    ensures answer { result ≡ stored_once E.same (length places.old) x (take count places.old) }
    ensures places { places.new ≡ places_once E.same x count places.old }
    ensures once { Once E.same x count places.old places.new result }
{
    let held = count.min(places.len());
    if let Some(place) = find(&places[..held], &x) {
        return Some(Stored { place, count: held });
    }
    if held == places.len() {
        return None;
    }
    places[held] = x;
    Some(Stored {
        place: held,
        count: held + 1,
    })
}
