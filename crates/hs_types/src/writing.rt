//! Writes into slots.

ghost use Rattle.std.specs.Prelude.{◌≡◌, ◌∷◌, [], ℕ, true, false, nat_lt, map, vec_len, vec_capacity};
ghost use Rattle.std.specs.List.Sorted.{IsPartitionPoint};
ghost use Rattle.hs_expr.specs.Lists.{Differ, Rise};
ghost use Rattle.hs_types.specs.Step.{object_after};
ghost use Rattle.hs_types.specs.Writing.{AreKeyed, IsPlace, set_slot};

use crate::{FeatureNo, Object, ObjectNo, Slot, SlotKind, Write};
use hs_expr::{List, Value};
use std::alloc::Global;
use std::mem;

/// Writes the values into their slots, without taking memory. Each write costs one search by
/// number.
pub(crate) fn write_slots(objects: &mut Vec<Object>, mut writes: Vec<Write>)
    requires { AreKeyed objects.old.items }
    ensures items { objects.new.items ≡ map (object_after writes.items) objects.old.items }
    ensures len { vec_len objects.new ≡ vec_len objects.old }
    ensures capacity { vec_capacity objects.new ≡ vec_capacity objects.old }
{
    // The last write first: of two to one slot the first then stands.
    while let Some(write) = writes.pop() {
        write_one(objects, write);
    }
}

fn write_one(objects: &mut Vec<Object>, write: Write)
    requires { AreKeyed objects.old.items }
    ensures items { objects.new.items ≡ map (object_after (write ∷ [])) objects.old.items }
    ensures len { vec_len objects.new ≡ vec_len objects.old }
    ensures capacity { vec_capacity objects.new ≡ vec_capacity objects.old }
{
    let Write {
        object,
        slot,
        value,
    } = write;
    let alloc = *objects.allocator();
    match slot {
        SlotKind::Attribute(attribute) => {
            if let Some(place) = place_of(objects.as_slice(), object) {
                write_slot(alloc, &mut objects[place].slots, attribute, value);
            }
        }
        SlotKind::Link(_) => {}
        SlotKind::Container => {}
    }
}

/// The place of the object of this number.
fn place_of(objects: &[Object], number: ObjectNo) -> Option<usize>
    requires { (high : ℕ) × Rise 0 (map (λ object. object.number) objects.now) high }
    ensures { IsPlace (λ object. object.number) objects.now number result }
{
    let place = first_from(objects, number);
    if place < objects.len() && objects[place].number == number {
        Some(place)
    } else {
        None
    }
}

/// How many objects have lesser numbers: they stand in front.
fn first_from(objects: &[Object], number: ObjectNo) -> usize
    requires { (high : ℕ) × Rise 0 (map (λ object. object.number) objects.now) high }
    ensures { IsPartitionPoint (λ object. nat_lt object.number number ≡ true)
        (λ object. nat_lt object.number number ≡ false) objects.now result }
{
    objects.partition_point(|object| object.number < number)
}

fn write_slot(alloc: Global, slots: &mut List<Slot>, attribute: FeatureNo, value: Value)
    requires { Differ (map (λ slot. slot.attribute) slots.old) }
    ensures { slots.new ≡ map (set_slot attribute value) slots.old }
{
    let mut row = mem::replace(slots, List::new(alloc)).into_vec();
    set_in(&mut row, attribute, value);
    *slots = List::from_vec(row);
}

fn set_in(row: &mut Vec<Slot>, attribute: FeatureNo, value: Value)
    requires { Differ (map (λ slot. slot.attribute) row.old.items) }
    ensures { row.new.items ≡ map (set_slot attribute value) row.old.items }
{
    if let Some(place) = place_among(row.as_slice(), attribute) {
        row[place].value = value;
    }
}

/// The place of the slot for this attribute.
fn place_among(slots: &[Slot], attribute: FeatureNo) -> Option<usize>
    ensures { IsPlace (λ slot. slot.attribute) slots.now attribute result }
{
    for place in 0..slots.len() {
        if slots[place].attribute == attribute {
            return Some(place);
        }
    }
    None
}
