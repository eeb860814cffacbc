//! What is searched.

ghost use Rattle.std.specs.Prelude.{◌≡◌, ℕ, List, ◌<◌, ◌≤◌, ◌++◌, [], ◌∷◌, ◌↔◌, IsTrue, length, IfSome, IfNone};
ghost use Rattle.hs_search.specs.Choice.{EachFits, IsDeadEnd};

use arrayvec::ArrayVec;

/// How many numbers a choice may have.
pub const MOST: usize = 28;

/// The numbers of a choice, kept without taking memory.
pub type Numbers = ArrayVec<u32, MOST>;

/// What is searched: good lists of a given length, found number by number.
pub trait Choice {
    ghost size: { Self → ℕ };

    // What each number meets after those before it, once `next` has given it.
    ghost Fits: { Self → List ℕ → ℕ → Type 0 };

    ghost Good: { Self → List ℕ → Type 0 };

    /// How many numbers a choice has.
    fn size(&self) -> usize
        ensures { result ≡ size self.now };

    /// A number from `from` on that may follow `front`. Those that it passes over lead to no
    /// choice; it may itself lead to none.
    fn next(&self, front: &[u32], from: u64) -> Option<u32>
        requires short { length front.now < size self.now }
        requires each_fits { EachFits (Fits self.now) [] front.now }
        ensures fits { IfSome result (λ x. Fits self.now front.now x) }
        ensures from { IfSome result (λ x. from ≤ x) }
        ensures passed { IfSome result (λ x. (y : ℕ) → from ≤ y → y < x
            → IsDeadEnd (size self.now) (Good self.now) (front.now ++ y ∷ [])) }
        ensures none { IfNone result ((y : ℕ) → from ≤ y
            → IsDeadEnd (size self.now) (Good self.now) (front.now ++ y ∷ [])) };

    /// Whether the list is good.
    fn is_good(&self, all: &[u32]) -> bool
        requires whole { length all.now ≡ size self.now }
        requires each_fits { EachFits (Fits self.now) [] all.now }
        ensures { IsTrue result ↔ Good self.now all.now };
}
