//! The supertypes of written classes.

ghost use Rattle.std.specs.Prelude.{◌≡◌, ◌∷◌, ℕ, List, map, IfOk, OnOk};
ghost use Rattle.std.specs.List.{filter_map};
ghost use Rattle.hs_expr.specs.Lists as lists;
ghost use Rattle.hs_meta.specs.Inheriting.{with_further};
ghost use Rattle.hs_meta.specs.Names as by_name;
ghost use Rattle.hs_meta.specs.WrittenSupers as spec;
ghost use Rattle.hs_types.specs.Reachability.{reach_rows as rows_for};

use crate::names::raw_class_number;
use crate::raw::RawClass;
use hs_expr::{List, Text};
use hs_types::reach_rows;
use std::alloc::{AllocError, Global};

/// The numbers of each class's direct supertypes.
pub fn written_supers(alloc: Global, classes: &[RawClass]) -> Result<List<List<usize>>, AllocError>
    ensures { IfOk result (λ supers. supers ≡ spec.written_supers classes.now) }
{
    let mut supers = List::new(alloc);
    for class in classes {
        supers.push(numbers_of(alloc, classes, class.supers.as_slice())?)?;
    }
    Ok(supers)
}

/// The numbers of the classes that have these names.
fn numbers_of(
    alloc: Global,
    classes: &[RawClass],
    names: &[Text],
) -> Result<List<usize>, AllocError>
    ensures { IfOk result
        (λ numbers. numbers ≡ filter_map (by_name.raw_class_number classes.now) names.now) }
{
    let mut numbers = List::new(alloc);
    for name in names {
        match raw_class_number(classes, name) {
            Some(number) => numbers.push(number)?,
            None => {}
        }
    }
    Ok(numbers)
}

/// For each class a row that says of every class whether it is below that one. A supertype that is
/// named many times is looked at once.
#[tactic(auto, using(crate::proofs::WrittenSupers::rows_once))]
pub fn rows_of(alloc: Global, supers: &[List<usize>]) -> Result<List<List<bool>>, AllocError>
    ensures { IfOk result (λ rows. rows ≡ rows_for supers.now) }
{
    let once = without_repeats(alloc, supers)?;
    reach_rows(alloc, once.as_slice())
}

fn without_repeats(alloc: Global, supers: &[List<usize>]) -> Result<List<List<usize>>, AllocError>
    ensures { IfOk result (λ once. once ≡ map lists.each_once supers.now) }
{
    let mut once = List::new(alloc);
    for numbers in supers {
        once.push(each_once(alloc, numbers.as_slice())?)?;
    }
    Ok(once)
}

/// Each number once, where it first comes.
#[tactic(auto, using(crate::proofs::Inheriting::further))]
fn each_once(alloc: Global, numbers: &[usize]) -> Result<List<usize>, AllocError>
    ensures { IfOk result (λ once. once ≡ lists.each_once numbers.now) }
{
    let mut once = List::new(alloc);
    for number in numbers {
        add_if_new(*number, &mut once)?;
    }
    Ok(once)
}

/// Adds a number where it isn't there yet.
#[tactic(auto, using(crate::proofs::Inheriting::further))]
fn add_if_new(number: usize, numbers: &mut List<usize>) -> Result<(), AllocError>
    ensures { (rest : List ℕ)
        → OnOk result (with_further numbers.new rest ≡ with_further numbers.old (number ∷ rest)) }
{
    if has(numbers.as_slice(), number) {
        return Ok(());
    }
    numbers.push(number)
}

fn has(numbers: &[usize], number: usize) -> bool
    ensures { result ≡ lists.has numbers.now number }
{
    numbers.iter().any(|n| number == *n)
}
