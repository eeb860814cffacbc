//! The numbers of features: of those that classes own, and of those that they inherit.

ghost use Rattle.std.specs.Prelude.{◌≡◌, ◌+◌, ◌*◌, ◌∷◌, ◌++◌, ◌<◌, ◌≤◌, ℕ, List, [], map, not, length, get_or, slice_set, sum_by, count_by, IfOk, OnOk};
ghost use Rattle.std.specs.List.{All, flat_map, range_with_len};
ghost use Rattle.hs_expr.specs.Lists as lists;
ghost use Rattle.hs_expr.specs.Lists.{each_once};
ghost use Rattle.hs_types.specs.declared.limits.TheConstants.{MAX_CLASSES, MAX_FEATURES};
ghost use Rattle.hs_meta.specs.Inheriting as inheriting;
ghost use Rattle.hs_meta.specs.Meaning as meaning;
ghost use Rattle.hs_meta.specs.Ranks as spec;

use crate::raw::RawClass;
use hs_expr::List;
use hs_types::FeatureNo;
use std::alloc::{AllocError, Global};

/// The numbers of the features that each class owns.
pub fn own_numbers(alloc: Global, classes: &[RawClass]) -> Result<List<List<FeatureNo>>, AllocError>
    requires { sum_by meaning.own_count classes.now ≤ MAX_CLASSES * MAX_FEATURES }
    ensures { IfOk result (λ own. own ≡ meaning.own_numbers classes.now) }
{
    let mut own = List::new(alloc);
    let mut first = 0;
    for class in classes {
        let count = class.attributes.len() + class.references.len();
        own.push(numbers_from(alloc, first, count)?)?;
        first += count;
    }
    Ok(own)
}

/// So many numbers from the first on.
#[tactic(auto, using(crate::proofs::Rowed::one_number_more))]
fn numbers_from(alloc: Global, first: usize, count: usize) -> Result<List<FeatureNo>, AllocError>
    requires { first + count ≤ MAX_CLASSES * MAX_FEATURES }
    ensures { IfOk result (λ numbers. numbers ≡ range_with_len first count) }
{
    let mut numbers = List::new(alloc);
    for i in 0..count {
        numbers.push((first + i) as FeatureNo)?;
    }
    Ok(numbers)
}

/// For each class how many are not below it, by the rows of what is below. That is fewer than of
/// any class below it.
pub fn ranks_of(alloc: Global, rows: &[List<bool>]) -> Result<List<usize>, AllocError>
    ensures { IfOk result (λ ranks. ranks ≡ spec.ranks rows.now) }
{
    let mut ranks = List::new(alloc);
    for row in rows {
        ranks.push(rank_of(row.as_slice()))?;
    }
    Ok(ranks)
}

fn rank_of(row: &[bool]) -> usize
    ensures { result ≡ count_by not row.now }
{
    row.iter().filter(|mark| !**mark).count()
}

/// The features of each class: the inherited ones, supertype by supertype, each once, and then its
/// own. Classes go by their ranks, so that each comes after its supertypes.
pub fn with_inherited(
    alloc: Global,
    supers: &[List<usize>],
    ranks: &[usize],
    own: List<List<FeatureNo>>,
) -> Result<List<List<FeatureNo>>, AllocError>
    requires own { length own ≡ length supers.now }
    requires ranks { length ranks.now ≡ length supers.now }
    requires low { All (λ rank. rank ≤ length supers.now) ranks.now }
    requires ranked { spec.AreRanked supers.now ranks.now }
    ensures { IfOk result
        (λ made. made ≡ map (meaning.features_within supers.now own (length supers.now))
        (range_with_len 0 (length supers.now))) }
{
    let mut made = own.into_vec();
    for rank in 0..supers.len() + 1 {
        add_inherited(alloc, supers, ranks, rank, made.as_mut_slice())?;
    }
    Ok(List::from_vec(made))
}

/// Adds what the classes of this rank inherit.
#[tactic(auto, using(crate::proofs::Ranked::turns))]
fn add_inherited(
    alloc: Global,
    supers: &[List<usize>],
    ranks: &[usize],
    rank: usize,
    made: &mut [List<FeatureNo>],
) -> Result<(), AllocError>
    requires long { length made.old ≡ length supers.now }
    requires ranks { length ranks.now ≡ length supers.now }
    requires low { All (λ rank. rank ≤ length supers.now) ranks.now }
    requires ranked { spec.AreRanked supers.now ranks.now }
    ensures { (own : List (List ℕ))
        → inheriting.AreFoundBefore supers.now own ranks.now rank 0 made.old
        → OnOk result (inheriting.AreFoundBefore supers.now own ranks.now (rank + 1) 0 made.new) }
{
    for (c, own_rank) in ranks.iter().enumerate() {
        if *own_rank == rank {
            put_inherited_first(alloc, supers[c].as_slice(), c, made)?;
        }
    }
    Ok(())
}

/// Puts the features of these supertypes, each once, before those of class `c`.
fn put_inherited_first(
    alloc: Global,
    supers: &[usize],
    c: usize,
    made: &mut [List<FeatureNo>],
) -> Result<(), AllocError>
    requires { c < length made.old }
    ensures { OnOk result (made.new ≡ slice_set made.old c
        (each_once (flat_map (λ s. get_or made.old s []) supers.now) ++ get_or made.old c [])) }
{
    let mut features = inherited(alloc, supers, made)?;
    add_all(made[c].as_slice(), &mut features)?;
    made[c] = features;
    Ok(())
}

#[tactic(auto, using(crate::proofs::Inheriting::further))]
fn inherited(
    alloc: Global,
    supers: &[usize],
    made: &[List<FeatureNo>],
) -> Result<List<FeatureNo>, AllocError>
    ensures { IfOk result
        (λ features. features ≡ each_once (flat_map (λ s. get_or made.now s []) supers.now)) }
{
    let mut features = List::new(alloc);
    for s in supers {
        match made.get(*s) {
            Some(more) => add_further(more.as_slice(), &mut features)?,
            None => {}
        }
    }
    Ok(features)
}

fn add_all(more: &[FeatureNo], numbers: &mut List<FeatureNo>) -> Result<(), AllocError>
    ensures { OnOk result (numbers.new ≡ numbers.old ++ more.now) }
{
    for number in more {
        numbers.push(*number)?;
    }
    Ok(())
}

/// Adds those numbers that aren't there yet.
fn add_further(more: &[FeatureNo], numbers: &mut List<FeatureNo>) -> Result<(), AllocError>
    ensures { (rest : List ℕ) → OnOk result (inheriting.with_further numbers.new rest
        ≡ inheriting.with_further numbers.old (more.now ++ rest)) }
{
    for number in more {
        add_if_new(*number, numbers)?;
    }
    Ok(())
}

/// Adds a number where it isn't there yet.
#[tactic(auto, using(crate::proofs::Inheriting::further))]
fn add_if_new(number: FeatureNo, numbers: &mut List<FeatureNo>) -> Result<(), AllocError>
    ensures { (rest : List ℕ) → OnOk result (inheriting.with_further numbers.new rest
        ≡ inheriting.with_further numbers.old (number ∷ rest)) }
{
    if has(numbers.as_slice(), number) {
        return Ok(());
    }
    numbers.push(number)
}

fn has(numbers: &[FeatureNo], number: FeatureNo) -> bool
    ensures { result ≡ lists.has numbers.now number }
{
    numbers.iter().any(|n| number == *n)
}
