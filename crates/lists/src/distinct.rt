ghost use Rattle.std.specs.Prelude.{◌≡◌, [], length, take};
ghost use Rattle.lists.specs.Finding.{first_of, First};
ghost use Rattle.lists.specs.Once.{stored_once, places_once, count_after, Apart, Once};

use crate::asking::{Meets, Same};
use crate::finding::find;
use crate::once::store_once;
use crate::stored::Stored;

// A list in lent memory: its elements are the first `count`, and no two of them are the same.
// A count beside a slice, as the memory is lent and never grows.
#[derive(Drop)]
pub struct Distinct<'a, E> {
    pub(crate) places: &'a mut [E],
    pub(crate) count: usize,
}

impl<'a, E: Same + Copy> Distinct<'a, E> {
    // The empty list.
    pub fn new(places: &'a mut [E]) -> Distinct<'a, E>
        ensures lent { result.places.now ≡ places.old }
        ensures empty { take result.count result.places.now ≡ [] }
        ensures apart { Apart E.same (take result.count result.places.now) }
    {
        Distinct { places, count: 0 }
    }

    // The elements.
    pub fn elements(&self) -> &[E]
        ensures { result.now ≡ take self.now.count self.now.places.now }
    {
        let held = self.count.min(self.places.len());
        &self.places[..held]
    }

    // The place of the first element that meets the question.
    pub fn find<Q>(&self, question: &Q) -> Option<usize>
    where
        E: Meets<Q>,
        ensures value { result ≡ first_of (λ (x : E). E.meets x question.now) (take self.now.count self.now.places.now) }
        ensures law { First (λ (x : E). E.meets x question.now) (take self.now.count self.now.places.now) result }
    {
        find(self.elements(), question)
    }

    // Stores x once, and says where it stands then; none where the list is full.
    pub fn store_once(&mut self, x: E) -> Option<Stored>
        ensures lender { self.new.places.ghost_name ≡ self.old.places.ghost_name }
        ensures answer { result ≡ stored_once E.same (length self.old.places.now) x (take self.old.count self.old.places.now) }
        ensures places { self.new.places.now ≡ places_once E.same x self.old.count self.old.places.now }
        ensures count { self.new.count ≡ count_after self.old.count result }
        ensures once { Once E.same x self.old.count self.old.places.now self.new.places.now result }
    {
        let count = self.count;
        let stored = store_once(self.places, count, x);
        if let Some(s) = stored {
            self.count = s.count;
        }
        stored
    }
}
