//! Look-ups in lists of objects and edges.

ghost use Rattle.std.specs.Prelude.{◌≡◌, ◌||◌, eqb, slice_get, option_copied};
ghost use Rattle.std.specs.List.{find, filter};
ghost use Rattle.std.specs.Option.{option_map};
ghost use Rattle.hs_expr.specs.Lists.{same_text};
ghost use Rattle.hs_types.specs.TypedGraph.{value_in};

use crate::{Edge, FeatureNo, Object, ObjectNo, Slot};
use hs_expr::Value;

/// The object of this number.
pub(crate) fn object_numbered(objects: &[Object], number: ObjectNo) -> Option<&Object>
    ensures { option_copied result ≡ find (λ object. eqb object.number number) objects.now }
{
    objects.iter().find(|object| object.number == number)
}

/// The number of the object of this name.
pub(crate) fn number_named(objects: &[Object], name: &str) -> Option<ObjectNo>
    ensures { result ≡ option_map (λ object. object.number)
        (find (λ object. same_text object.name name.now) objects.now) }
{
    let found = objects.iter().find(|object| object.name.as_str() == name)?;
    Some(found.number)
}

/// The value for the attribute among these slots.
pub(crate) fn value_in(slots: &[Slot], attribute: FeatureNo) -> Option<&Value>
    ensures { option_copied result ≡ value_in attribute slots.now }
{
    let found = slots.iter().find(|slot| slot.attribute == attribute)?;
    Some(&found.value)
}

/// The edge at this place among those at the object.
pub(crate) fn edge_beside(edges: &[Edge], object: ObjectNo, place: usize) -> Option<Edge>
    ensures { result
        ≡ slice_get (filter (λ edge. eqb edge.source object || eqb edge.target object) edges.now)
        place }
{
    let mut beside = edges
        .iter()
        .filter(|edge| edge.source == object || edge.target == object);
    beside.nth(place).copied()
}
