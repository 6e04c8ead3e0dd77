ghost use Rattle.std.specs.Prelude.{◌≡◌};
ghost use Rattle.lists.specs.Finding.{first_of, First};

use crate::asking::{Meets, Same};

// The place of the first element that meets the question.
pub fn find<Q, E: Meets<Q>>(elements: &[E], question: &Q) -> Option<usize>
    ensures value { result ≡ first_of (λ (x : E). E.meets x question.now) elements.now }
    ensures law { First (λ (x : E). E.meets x question.now) elements.now result }
{
    elements.iter().position(|element| element.is_met(question))
}

// The place of the first element that is the same as the wanted one.
pub fn find_same<E: Same>(elements: &[E], wanted: &E) -> Option<usize>
    ensures value { result ≡ first_of (λ (x : E). E.same x wanted.now) elements.now }
    ensures law { First (λ (x : E). E.same x wanted.now) elements.now result }
{
    find(elements, wanted)
}
