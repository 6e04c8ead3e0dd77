ghost use Rattle.std.specs.Prelude.{◌≡◌, Bool, true};

// What can be asked a question of the kind Q, and answers yes or no.
pub trait Meets<Q> {
    ghost meets: { Self → Q → Bool };

    fn is_met(&self, question: &Q) -> bool
        ensures { result ≡ meets self.now question.now };
}

// What can tell sameness, which is no `Eq`, as what is the same need not be equal: everything is the same as itself, in either order, and what is the same as a third is the same.
pub trait Same {
    ghost same: { Self → Self → Bool };

    fn is_same(&self, other: &Self) -> bool
        ensures { result ≡ same self.now other.now };

    ghost reflexive: { (x : Self) → same x x ≡ true };

    ghost symmetric: { (x y : Self) → same x y ≡ true → same y x ≡ true };

    ghost transitive: { (x y z : Self) → same x y ≡ true → same y z ≡ true → same x z ≡ true };
}

// The question of sameness.
impl<E: Same> Meets<E> for E {
    ghost meets = { λ x y. E.Same.same x y };

    fn is_met(&self, question: &E) -> bool {
        self.is_same(question)
    }
}
