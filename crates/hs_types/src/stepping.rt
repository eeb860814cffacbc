//! The two halves of a step, in room that is there.

ghost use Rattle.std.specs.Prelude.{◌≡◌, ◌+◌, ◌^◌, ◌≤◌, ◌++◌, length, map, not, vec_len, vec_capacity};
ghost use Rattle.std.specs.List.{All, filter};
ghost use Rattle.hs_expr.specs.Lists.{has};
ghost use Rattle.hs_types.specs.Step.{new_edges, new_objects, number_of, object_after};
ghost use Rattle.hs_types.specs.Writing.{AreKeyed, IsWithin};

use crate::sorted_numbers::SortedNumbers;
use crate::writing::write_slots;
use crate::{Edge, EdgeNo, End, MadeEdge, MadeObject, Object, ObjectNo, Write};

/// The objects after a step.
pub(crate) fn step_objects(
    objects: &mut Vec<Object>,
    dropped: Vec<ObjectNo>,
    writes: Vec<Write>,
    first: u64,
    first_name: u64,
    made: Vec<MadeObject>,
)
    requires keyed { AreKeyed objects.old.items }
    requires numbers { first + length made.items ≤ 2 ^ 32 }
    requires names { first_name + length made.items ≤ 10 ^ 10 }
    requires room { vec_len objects.old + length made.items ≤ vec_capacity objects.old }
    ensures items { objects.new.items
        ≡ map (object_after writes.items)
        (filter (λ object. not (has dropped.items object.number)) objects.old.items)
        ++ new_objects first first_name made.items }
    ensures bound { vec_len objects.new ≤ vec_len objects.old + length made.items }
    ensures capacity { vec_capacity objects.new ≡ vec_capacity objects.old }
{
    drop_objects(objects, dropped);
    write_slots(objects, writes);
    add_objects(objects, first, first_name, made);
}

/// The edges after a step, where the first made object gets number `next`.
pub(crate) fn step_edges(
    edges: &mut Vec<Edge>,
    dropped: Vec<EdgeNo>,
    next: u64,
    first: u64,
    made: &[MadeEdge],
)
    requires ends { All (λ edge. IsWithin next edge.source × IsWithin next edge.target) made.now }
    requires numbers { first + length made.now ≤ 2 ^ 32 }
    requires room { vec_len edges.old + length made.now ≤ vec_capacity edges.old }
    ensures items { edges.new.items
        ≡ filter (λ edge. not (has dropped.items edge.number)) edges.old.items
        ++ new_edges next first made.now }
    ensures bound { vec_len edges.new ≤ vec_len edges.old + length made.now }
    ensures capacity { vec_capacity edges.new ≡ vec_capacity edges.old }
{
    drop_edges(edges, dropped);
    add_edges(edges, next, first, made);
}

/// Takes these objects out, in one walk.
fn drop_objects(objects: &mut Vec<Object>, dropped: Vec<ObjectNo>)
    ensures items { objects.new.items
        ≡ filter (λ object. not (has dropped.items object.number)) objects.old.items }
    ensures bound { vec_len objects.new ≤ vec_len objects.old }
    ensures capacity { vec_capacity objects.new ≡ vec_capacity objects.old }
{
    let dropped = SortedNumbers::of(dropped);
    objects.retain(|object| !dropped.contains(object.number));
}

/// Takes these edges out, in one walk.
fn drop_edges(edges: &mut Vec<Edge>, dropped: Vec<EdgeNo>)
    ensures items { edges.new.items
        ≡ filter (λ edge. not (has dropped.items edge.number)) edges.old.items }
    ensures bound { vec_len edges.new ≤ vec_len edges.old }
    ensures capacity { vec_capacity edges.new ≡ vec_capacity edges.old }
{
    let dropped = SortedNumbers::of(dropped);
    edges.retain(|edge| !dropped.contains(edge.number));
}

/// Adds the made objects, of which the first gets this number and the name `#k`.
fn add_objects(objects: &mut Vec<Object>, first: u64, first_name: u64, made: Vec<MadeObject>)
    requires numbers { first + length made.items ≤ 2 ^ 32 }
    requires names { first_name + length made.items ≤ 10 ^ 10 }
    requires room { vec_len objects.old + length made.items ≤ vec_capacity objects.old }
    ensures items { objects.new.items
        ≡ objects.old.items ++ new_objects first first_name made.items }
    ensures len { vec_len objects.new ≡ vec_len objects.old + length made.items }
    ensures capacity { vec_capacity objects.new ≡ vec_capacity objects.old }
{
    let mut number = first;
    let mut k = first_name;
    for object in made {
        objects.push_reserved(object.numbered(number as u32, k));
        number += 1;
        k += 1;
    }
}

/// Adds the made edges, of which the first gets this number, where the first made object gets
/// number `next`.
fn add_edges(edges: &mut Vec<Edge>, next: u64, first: u64, made: &[MadeEdge])
    requires ends { All (λ edge. IsWithin next edge.source × IsWithin next edge.target) made.now }
    requires numbers { first + length made.now ≤ 2 ^ 32 }
    requires room { vec_len edges.old + length made.now ≤ vec_capacity edges.old }
    ensures items { edges.new.items ≡ edges.old.items ++ new_edges next first made.now }
    ensures len { vec_len edges.new ≡ vec_len edges.old + length made.now }
    ensures capacity { vec_capacity edges.new ≡ vec_capacity edges.old }
{
    let mut number = first;
    for edge in made {
        edges.push_reserved(Edge {
            number: number as u32,
            source: number_of(next, edge.source),
            reference: edge.reference,
            target: number_of(next, edge.target),
        });
        number += 1;
    }
}

/// The number of an end, where the first made object gets number `next`.
fn number_of(next: u64, end: End) -> ObjectNo
    requires { IsWithin next end }
    ensures { result ≡ number_of next end }
{
    match end {
        End::Old(number) => number,
        End::New(place) => (next + u64::from(place)) as u32,
    }
}
