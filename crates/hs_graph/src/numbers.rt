//! The numbers of objects by their names.

ghost use Rattle.std.specs.Prelude.{◌≡◌, ◌≤◌, max, ℕ, List, Some, cond, is_some, length, IfOk};
ghost use Rattle.hs_expr.specs.Lists.{same_text};
ghost use Rattle.hs_expr.specs.Steps.{GivesWhere};
ghost use Rattle.hs_expr.specs.Verdict.{verdict};
ghost use Rattle.hs_graph.specs.Faults as spec;
ghost use Rattle.hs_graph.specs.Lookups as lookups;
ghost use Rattle.hs_graph.specs.Meaning as meaning;

use crate::fault::{GraphFault, GraphFaultKind, GraphPlace, fault};
use crate::names::next_after;
use crate::raw::RawObject;
use hs_expr::Failure;
use hs_types::ObjectNo;
use hs_types::limits::MAX_OBJECTS;
use std::alloc::{AllocError, Global};
use std::collections::HashMap;

/// The numbers of the objects, by their names.
pub type Numbers<'a> = HashMap<&'a str, ObjectNo>;

/// What the objects' names give.
#[derive(Drop)]
pub struct Named<'a> {
    pub numbers: Numbers<'a>,
    pub next_name: u64,
}

/// The numbers of the objects, or the first name that can't name an object or is repeated.
pub fn names_of<'a>(
    alloc: Global,
    objects: &[RawObject<'a>],
) -> Result<Named<'a>, Failure<GraphFault>>
    requires { length objects.now ≤ MAX_OBJECTS }
    ensures { GivesWhere (λ named. ((name : List ℕ)
        → lookups.number_named named.numbers name
        ≡ lookups.place_of (lookups.object_names objects.now) name)
        × (named.next_name ≡ meaning.next_name_after (lookups.object_names objects.now))) result
        (verdict (spec.name_faults objects.now)) }
{
    let mut numbers = Numbers::with_capacity(alloc, objects.len())?;
    let mut next_name = 0;
    for (i, object) in objects.iter().enumerate() {
        let place = GraphPlace::ObjectName { object: i };
        let name = object.name.as_str();
        match next_after(name) {
            Some(next) => next_name = larger(next_name, next),
            None => return Err(Failure::Fault(fault(place, GraphFaultKind::Name))),
        }
        if add_name(name, i as u32, &mut numbers)? {
            return Err(Failure::Fault(fault(place, GraphFaultKind::Twice)));
        }
    }
    Ok(Named { numbers, next_name })
}

/// Gives the name this number, and says whether it had one.
fn add_name<'a>(
    name: &'a str,
    number: ObjectNo,
    numbers: &mut Numbers<'a>,
) -> Result<bool, AllocError>
    ensures known { IfOk result
        (λ known. known ≡ is_some (lookups.number_named numbers.old name.now)) }
    ensures added { IfOk result (λ known. (other : List ℕ) → lookups.number_named numbers.new other
        ≡ cond (same_text name.now other) (Some number) (lookups.number_named numbers.old other)) }
{
    Ok(numbers.insert(name, number)?.is_some())
}

fn larger(one: u64, other: u64) -> u64
    ensures { result ≡ max one other }
{
    if one < other { other } else { one }
}
