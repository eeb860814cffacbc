//! Values that are written for attributes.

ghost use Rattle.std.specs.Prelude.{◌≡◌};
ghost use Rattle.hs_types.specs.Metamodel as metamodel;
ghost use Rattle.hs_graph.specs.Faults as spec;

use crate::borrowed::ValueRef;
use crate::raw::RawValue;
use hs_types::{FeatureNo, Meta};

/// Whether the attribute takes what is written: a value of its type, and a short one.
pub fn takes(meta: &Meta, attribute: FeatureNo, written: &RawValue<'_>) -> bool
    ensures { result ≡ spec.takes meta.now attribute written.now }
{
    match written {
        RawValue::Given(value) => fits(meta, attribute, value) && value.is_short(),
        RawValue::NoValue => false,
    }
}

/// Whether the feature is an attribute, and the value of its type.
fn fits(meta: &Meta, feature: FeatureNo, value: &ValueRef<'_>) -> bool
    ensures { result ≡ metamodel.fits meta.now feature value.now }
{
    match meta.type_of(feature) {
        Some(data_type) => value.is_of_type(data_type),
        None => false,
    }
}
