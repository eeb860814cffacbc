//! Backtracking search for the least choice.

ghost use Rattle.std.specs.Prelude.{◌≡◌, ℕ, List, ◌<◌, ◌≤◌, ◌++◌, [], ◌∷◌, ◌↔◌, IsTrue, IfSome, IfNone, option_copied};
ghost use Rattle.std.specs.Bool.{OnTrue, OnFalse};
ghost use Rattle.arrayvec.specs.ArrayVec.{array_vec_len};
ghost use Rattle.hs_search.specs.Choice.{EachFits, IsChoice, IsChoiceAfter, IsLeastList, IsNone};
ghost use Rattle.hs_search.specs.Search.{GoesOn, GoesOnBest, IsAbove, floor};

use crate::{Choice, Numbers};

/// The least choice.
pub fn least<C: Choice>(choice: &C) -> Option<Numbers>
    requires room { C.size choice.now ≤ 28 }
    ensures least { IfSome result
        (λ found. IsLeastList (IsChoice (C.size choice.now) (C.Good choice.now)) found.items) }
    ensures none { IfNone result (IsNone (IsChoice (C.size choice.now) (C.Good choice.now))) }
{
    let mut numbers = Numbers::new();
    if go_on(choice, None, &mut numbers) {
        Some(numbers)
    } else {
        None
    }
}

/// The least choice that comes after the list.
pub fn next_after<C: Choice>(choice: &C, after: &[u32]) -> Option<Numbers>
    requires room { C.size choice.now ≤ 28 }
    ensures least { IfSome result (λ found.
        IsLeastList (IsChoiceAfter (C.size choice.now) (C.Good choice.now) after.now) found.items) }
    ensures none { IfNone result
        (IsNone (IsChoiceAfter (C.size choice.now) (C.Good choice.now) after.now)) }
{
    let mut numbers = Numbers::new();
    if go_on(choice, Some(after), &mut numbers) {
        Some(numbers)
    } else {
        None
    }
}

/// Whether there is a choice.
pub fn exists<C: Choice>(choice: &C) -> bool
    requires room { C.size choice.now ≤ 28 }
    ensures { IsTrue result ↔
        ((xs : List ℕ) × IsChoice (C.size choice.now) (C.Good choice.now) xs) }
{
    least(choice).is_some()
}

/// Extends the numbers to the least choice whose rest comes after the bound, or leaves them.
fn go_on<C: Choice>(choice: &C, bound: Option<&[u32]>, numbers: &mut Numbers) -> bool
    requires room { C.size choice.now ≤ 28 }
    requires within { array_vec_len numbers.old ≤ C.size choice.now }
    requires each_fits { EachFits (C.Fits choice.now) [] numbers.old.items }
    ensures found { OnTrue result (GoesOnBest (C.size choice.now) (C.Good choice.now)
        (option_copied bound.entry) numbers.old.items numbers.new.items) }
    ensures none { OnFalse result
        (IsNone (GoesOn (C.size choice.now) (C.Good choice.now) (option_copied bound.entry)
        numbers.old.items)) }
    ensures same { OnFalse result (numbers.new.items ≡ numbers.old.items) }
{
    if numbers.len() == choice.size() {
        return bound.is_none() && choice.is_good(numbers.as_slice());
    }
    let mut from = u64::from(first_of(bound));
    'search: while let Some(x) = choice.next(numbers.as_slice(), from) {
        numbers.push(x);
        if go_on(choice, bound_after(bound, x), numbers) {
            return true;
        }
        numbers.pop();
        from = u64::from(x) + 1;
    }
    false
}

/// The least number that a list above the bound can begin with.
fn first_of(bound: Option<&[u32]>) -> u32
    ensures { result ≡ floor (option_copied bound.entry) }
{
    match bound {
        Some([first, ..]) => *first,
        _ => 0,
    }
}

/// What bounds the numbers after x.
fn bound_after(bound: Option<&[u32]>, x: u32) -> Option<&[u32]>
    requires { floor (option_copied bound) ≤ x }
    ensures { (rest : List ℕ)
        → IsAbove (option_copied bound.entry) (x ∷ rest) ↔ IsAbove (option_copied result) rest }
{
    match bound {
        Some([first, rest @ ..]) if *first == x => Some(rest),
        _ => None,
    }
}
