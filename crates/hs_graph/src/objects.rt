//! The objects that written ones mean.

ghost use Rattle.std.specs.Prelude.{◌≡◌, ◌≤◌, length, IfOk};
ghost use Rattle.hs_graph.specs.Lookups.{classes_of_objects};
ghost use Rattle.hs_graph.specs.Meaning as spec;

use crate::attrs::slots_for;
use crate::raw::RawObject;
use hs_expr::List;
use hs_types::limits::MAX_OBJECTS;
use hs_types::{ClassNo, Meta, Object, ObjectNo};
use std::alloc::{AllocError, Global};

/// The objects, numbered by their places.
pub fn numbered_objects(
    alloc: Global,
    meta: &Meta,
    classes: &[ClassNo],
    objects: &[RawObject<'_>],
) -> Result<List<Object>, AllocError>
    requires few { length objects.now ≤ MAX_OBJECTS }
    requires resolved { classes.now ≡ classes_of_objects meta.now objects.now }
    ensures { IfOk result (λ made. made ≡ spec.objects_from meta.now 0 objects.now) }
{
    let mut made = List::from_vec(Vec::with_capacity(alloc, objects.len())?);
    for (i, object) in objects.iter().enumerate() {
        made.push(object_of(alloc, meta, classes[i], i as u32, object)?)?;
    }
    Ok(made)
}

/// The object of this number and class.
fn object_of(
    alloc: Global,
    meta: &Meta,
    class: ClassNo,
    number: ObjectNo,
    object: &RawObject<'_>,
) -> Result<Object, AllocError>
    ensures { IfOk result
        (λ made. made ≡ record {
          number = number;
          name = object.now.name;
          class = class;
          slots = spec.slots_for meta.now class object.now.attrs;
        }) }
{
    Ok(Object {
        number,
        name: object.name.to_text(alloc)?,
        class,
        slots: slots_for(alloc, meta, class, object.attrs.as_slice())?,
    })
}
