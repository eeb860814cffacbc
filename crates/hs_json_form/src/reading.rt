//! Readers of members and items, each a step further in.

ghost use Rattle.std.specs.Prelude.{◌≡◌, ◌∷◌, List, ℕ, [], map, false, IfOk};
ghost use Rattle.serde_json.specs.Data.{Data};
ghost use Rattle.serde_json.specs.Find.{get};
ghost use Rattle.serde_json.specs.View.{view, members_view};
ghost use Rattle.hs_expr.specs.Steps.{Gives};
ghost use Rattle.hs_json_form.specs.Form as spec;
ghost use Rattle.hs_json_form.specs.Form.{Read};
ghost use Rattle.hs_json_form.specs.declared.path.Step.TheVariants as step;

use crate::failure::fault_with;
use crate::form::{at_key, integer_of, text_of, truth_of};
use crate::{Path, Step};
use hs_expr::{Failure, List, Text};
use serde_json::{Map, Value};
use std::alloc::{AllocError, Global};

/// The list that the value is, each item read in turn.
#[tactic(auto, using(crate::proofs::Members::items_of_views))]
pub fn list_of<'a, T: Drop, F: Fn(&'a Value) -> Result<T, Failure<Path>>>(
    alloc: Global,
    value: &'a Value,
    read: &F,
) -> Result<List<T>, Failure<Path>>
    requires { F.IsAlwaysCallable read.now }
    ensures { (reads : Data → Read T)
        → ((v : _) (r : _) → F.post read.now v r → Gives r (reads (view v.now)))
        → Gives result (spec.list_of reads (view value.now)) }
{
    match value.as_array() {
        Some(values) => read_each(alloc, values.as_slice(), read),
        None => Err(Failure::Fault(Path::new(alloc))),
    }
}

/// Reads each value in turn.
fn read_each<'a, T: Drop, F: Fn(&'a Value) -> Result<T, Failure<Path>>>(
    alloc: Global,
    values: &'a [Value],
    read: &F,
) -> Result<List<T>, Failure<Path>>
    requires { F.IsAlwaysCallable read.now }
    ensures { (reads : Data → Read T)
        → ((v : _) (r : _) → F.post read.now v r → Gives r (reads (view v.now)))
        → Gives result (spec.each_item reads 0 (map view values.now)) }
{
    let mut items = List::from_vec(Vec::with_capacity(alloc, values.len())?);
    for (i, value) in values.iter().enumerate() {
        match at_index(i, read(value)) {
            Ok(item) => items.push(item)?,
            Err(failure) => return Err(failure),
        }
    }
    Ok(items)
}

/// What was read at an index, its fault reported from the list.
fn at_index<T: Drop>(i: usize, read: Result<T, Failure<Path>>) -> Result<T, Failure<Path>>
    ensures { (meant : _) → Gives read meant → Gives result (spec.at_step (step.Place i) meant) }
{
    fault_with(
        read,
        &|path: Path| -> Result<Path, AllocError>
            ensures { IfOk result (λ longer. longer ≡ step.Place i ∷ path) }
        { path.within(Step::Place(i)) },
    )
}

/// The list at a key, each item read in turn; empty where the key is left out.
pub fn list_at<'a, T: Drop, F: Fn(&'a Value) -> Result<T, Failure<Path>>>(
    alloc: Global,
    value: &'a Value,
    key: &str,
    read: &F,
) -> Result<List<T>, Failure<Path>>
    requires { F.IsAlwaysCallable read.now }
    ensures { (reads : Data → Read T)
        → ((v : _) (r : _) → F.post read.now v r → Gives r (reads (view v.now)))
        → Gives result (spec.at_or key.now [] (spec.list_of reads) (view value.now)) }
{
    match value.get(key) {
        Some(found) => at_key(alloc, key, list_of(alloc, found, read)),
        None => Ok(List::new(alloc)),
    }
}

/// What is read of each member of the object that the value is, by the order of their keys.
pub fn members_of<'a, T: Drop, F: Fn(&'a str, &'a Value) -> Result<T, Failure<Path>>>(
    alloc: Global,
    value: &'a Value,
    read: &F,
) -> Result<List<T>, Failure<Path>>
    requires { F.IsAlwaysCallable read.now }
    ensures { (reads : List ℕ → Data → Read T)
        → ((k : _) (v : _) (r : _) → F.post read.now k v r → Gives r (reads k.now (view v.now)))
        → Gives result (spec.members_of reads (view value.now)) }
{
    match value.as_object() {
        Some(members) => each_member(alloc, members, read),
        None => Err(Failure::Fault(Path::new(alloc))),
    }
}

fn each_member<'a, T: Drop, F: Fn(&'a str, &'a Value) -> Result<T, Failure<Path>>>(
    alloc: Global,
    members: &'a Map<String, Value>,
    read: &F,
) -> Result<List<T>, Failure<Path>>
    requires { F.IsAlwaysCallable read.now }
    ensures { (reads : List ℕ → Data → Read T)
        → ((k : _) (v : _) (r : _) → F.post read.now k v r → Gives r (reads k.now (view v.now)))
        → Gives result (spec.each_member reads (spec.entries (members_view members.now.entries))) }
{
    let mut items = List::from_vec(Vec::with_capacity(alloc, members.len())?);
    for (key, value) in members.iter() {
        match at_key(alloc, key.as_str(), read(key.as_str(), value)) {
            Ok(item) => items.push(item)?,
            Err(failure) => return Err(failure),
        }
    }
    Ok(items)
}

/// What is read of the members of the object at a key; nothing where the key is left out.
pub fn members_at<'a, T: Drop, F: Fn(&'a str, &'a Value) -> Result<T, Failure<Path>>>(
    alloc: Global,
    value: &'a Value,
    key: &str,
    read: &F,
) -> Result<List<T>, Failure<Path>>
    requires { F.IsAlwaysCallable read.now }
    ensures { (reads : List ℕ → Data → Read T)
        → ((k : _) (v : _) (r : _) → F.post read.now k v r → Gives r (reads k.now (view v.now)))
        → Gives result (spec.at_or key.now [] (spec.members_of reads) (view value.now)) }
{
    match value.get(key) {
        Some(found) => at_key(alloc, key, members_of(alloc, found, read)),
        None => Ok(List::new(alloc)),
    }
}

/// The truth value at a key; false where the key is left out.
pub fn truth_at(alloc: Global, value: &Value, key: &str) -> Result<bool, Failure<Path>>
    ensures { Gives result (spec.at_or key.now false spec.truth_value (view value.now)) }
{
    match value.get(key) {
        Some(found) => at_key(alloc, key, truth_of(alloc, found)),
        None => Ok(false),
    }
}

/// The integer at a key; this one where the key is left out.
pub fn integer_at(
    alloc: Global,
    value: &Value,
    key: &str,
    default: i64,
) -> Result<i64, Failure<Path>>
    ensures { Gives result (spec.at_or key.now default spec.integer_value (view value.now)) }
{
    match value.get(key) {
        Some(found) => at_key(alloc, key, integer_of(alloc, found)),
        None => Ok(default),
    }
}

/// The text at a key that has to be there.
pub fn text_at(alloc: Global, key: &str, value: &Value) -> Result<Text, Failure<Path>>
    ensures { Gives result (spec.text_at key.now (view value.now)) }
{
    at_key(alloc, key, text_of(alloc, value))
}
