//! Objects and edges by number, by binary search.

ghost use Rattle.std.specs.Prelude.{◌≡◌, ◌≤◌, ◌<◌, ◌↔◌, ◌++◌, ℕ, IsTrue, Some, slice_get, option_copied};
ghost use Rattle.hs_types.specs.TypedGraph.{object_numbered};
ghost use Rattle.hs_match.specs.Candidates.{Ascend, IsFree, IsNextFrom};

use hs_types::{ClassNo, ListGraph, Meta, Object, ObjectNo};

/// The place of the first object whose number is `from` or above.
pub fn first_from(objects: &[Object], from: u64) -> usize
    requires { Ascend (λ object. object.number) objects.now }
    ensures before { (i : ℕ) (object : _) → slice_get objects.now i ≡ Some object → i < result
        → object.number < from }
    ensures from { (i : ℕ) (object : _) → slice_get objects.now i ≡ Some object → result ≤ i
        → from ≤ object.number }
{
    objects.partition_point(|object| u64::from(object.number) < from)
}

/// The object with this number.
pub fn find_object(graph: &ListGraph, number: ObjectNo) -> Option<&Object>
    requires { Ascend (λ object. object.number) graph.now.graph.objects }
    ensures { option_copied result ≡ object_numbered graph.now.graph number }
{
    let place = first_from(graph.objects(), u64::from(number));
    match object_at(graph.objects(), place) {
        Some(object) => {
            if object.number == number {
                Some(object)
            } else {
                None
            }
        }
        None => None,
    }
}

fn object_at(objects: &[Object], place: usize) -> Option<&Object>
    ensures { option_copied result ≡ slice_get objects.now place }
{
    objects.get(place)
}
