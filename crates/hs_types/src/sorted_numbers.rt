//! Numbers in rising order.

ghost use Rattle.std.specs.Prelude.{◌≡◌, ℕ};
ghost use Rattle.hs_expr.specs.Lists.{has};

use std::marker::Model;

/// Numbers in rising order, so that a look-up takes few steps.
#[derive(Drop)]
pub(crate) struct SortedNumbers {
    rising: Vec<u32>,
}

impl Model for SortedNumbers {
    ghost use Rattle.std.specs.Prelude.{List, ℕ};
    ghost use Rattle.hs_types.specs.Writing.{AreRising};

    ghost Value = { List ℕ };

    ghost view = { λ numbers. numbers.rising.items };

    ghost invariant = { λ numbers. AreRising numbers.rising.items };
}

impl SortedNumbers {
    /// The same numbers, put in order where they lie.
    pub(crate) fn of(mut numbers: Vec<u32>) -> SortedNumbers
        ensures { (n : ℕ) → has result n ≡ has numbers.items n }
    {
        numbers.sort_unstable();
        SortedNumbers { rising: numbers }
    }

    pub(crate) fn contains(&self, number: u32) -> bool
        ensures { result ≡ has self.now number }
    {
        self.rising.binary_search(&number).is_ok()
    }
}
