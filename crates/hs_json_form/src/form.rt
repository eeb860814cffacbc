//! Objects, lists and scalars that a JSON value should be.

ghost use Rattle.std.specs.Prelude.{◌≡◌, ◌∷◌, [], IfOk, not, map, find, option_map, option_copied, string_bytes};
ghost use Rattle.std.specs.BTreeMap.{keys as map_keys};
ghost use Rattle.std.specs.List.{list_any};
ghost use Rattle.serde_json.specs.Find.{get};
ghost use Rattle.serde_json.specs.View.{view, members_view};
ghost use Rattle.hs_expr.specs.Steps.{Gives, GivesBy};
ghost use Rattle.hs_expr.specs.declared.failure.Failure.TheVariants as failure;
ghost use Rattle.hs_expr.specs.Lists.{same_text};
ghost use Rattle.hs_json_form.specs.Form as spec;
ghost use Rattle.hs_json_form.specs.declared.path.Step.TheVariants as step;

use crate::failure::fault_with;
use crate::{Path, Step};
use hs_expr::{Failure, Text};
use serde_json::{Map, Value};
use std::alloc::{AllocError, Global};

/// Goes on where the value is an object that has no other keys than these; else the value itself is
/// at fault, or its least other key.
pub fn only_known(alloc: Global, value: &Value, known: &[&str]) -> Result<(), Failure<Path>>
    ensures { Gives result (spec.only_known (map (λ s. s.now) known.now) (view value.now)) }
{
    let Some(members) = value.as_object() else {
        return Err(here(alloc));
    };
    match first_unknown(members, known) {
        Some(key) => Err(at(alloc, key)?),
        None => Ok(()),
    }
}

/// The fault of the value itself.
fn here(alloc: Global) -> Failure<Path>
    ensures { result ≡ failure.Fault [] }
{
    Failure::Fault(Path::new(alloc))
}

/// The fault of the value at a key.
fn at(alloc: Global, key: &str) -> Result<Failure<Path>, AllocError>
    ensures { IfOk result (λ fault. fault ≡ failure.Fault (step.Key key.now ∷ [])) }
{
    let step = Step::Key(Text::from_str(alloc, key)?);
    Ok(Failure::Fault(Path::new(alloc).within(step)?))
}

#[tactic(auto, using(crate::proofs::Members::unknown_in))]
fn first_unknown<'a>(members: &'a Map<String, Value>, known: &[&str]) -> Option<&'a str>
    ensures { option_map (λ s. s.now) result
        ≡ spec.unknown_key (map (λ s. s.now) known.now) (members_view members.now.entries) }
{
    match first_unknown_key(members, known) {
        Some(key) => Some(key.as_str()),
        None => None,
    }
}

fn first_unknown_key<'a>(members: &'a Map<String, Value>, known: &[&str]) -> Option<&'a String>
    ensures { option_copied result
        ≡ find (λ key. not (list_any (same_text (string_bytes key)) (map (λ s. s.now) known.now)))
        (map_keys members.now) }
{
    members.keys().find(|key| !is_known(known, key.as_str()))
}

#[tactic(auto, using(crate::proofs::Members::any_map))]
fn is_known(known: &[&str], key: &str) -> bool
    ensures { result ≡ list_any (same_text key.now) (map (λ s. s.now) known.now) }
{
    is_one_of(known, key)
}

fn is_one_of(known: &[&str], key: &str) -> bool
    ensures { result ≡ list_any (λ s. same_text key.now s.now) known.now }
{
    known.iter().any(|name| key == *name)
}

/// The value at a key that has to be there; else the key is at fault.
pub fn member_at<'a>(alloc: Global, value: &'a Value, key: &str) -> Result<&'a Value, Failure<Path>>
    ensures { GivesBy (λ v. view v.now) result (spec.member_at key.now (view value.now)) }
{
    match value.get(key) {
        Some(found) => Ok(found),
        None => Err(at(alloc, key)?),
    }
}

/// What was read at a key, its fault reported from the object that has the key.
pub fn at_key<T: Drop>(
    alloc: Global,
    key: &str,
    read: Result<T, Failure<Path>>,
) -> Result<T, Failure<Path>>
    ensures { (meant : _) → Gives read meant
        → Gives result (spec.at_step (step.Key key.now) meant) }
{
    fault_with(
        read,
        &|path: Path| -> Result<Path, AllocError>
            ensures { IfOk result (λ longer. longer ≡ step.Key key.entry.now ∷ path) }
        { path.within(Step::Key(Text::from_str(alloc, key)?)) },
    )
}

/// A copy of the text that the value is.
pub fn text_of(alloc: Global, value: &Value) -> Result<Text, Failure<Path>>
    ensures { Gives result (spec.text_value (view value.now)) }
{
    match value.as_str() {
        Some(text) => Ok(Text::from_str(alloc, text)?),
        None => Err(here(alloc)),
    }
}

/// The integer of 64 bits with a sign that the value is.
pub fn integer_of(alloc: Global, value: &Value) -> Result<i64, Failure<Path>>
    ensures { Gives result (spec.integer_value (view value.now)) }
{
    match value.as_i64() {
        Some(number) => Ok(number),
        None => Err(here(alloc)),
    }
}

/// The truth value that the value is.
pub fn truth_of(alloc: Global, value: &Value) -> Result<bool, Failure<Path>>
    ensures { Gives result (spec.truth_value (view value.now)) }
{
    match value.as_bool() {
        Some(truth) => Ok(truth),
        None => Err(here(alloc)),
    }
}
