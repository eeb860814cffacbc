//! Look-ups of features in a metamodel.

ghost use Rattle.std.specs.Prelude.{◌≡◌, option_copied};
ghost use Rattle.hs_types.specs.Metamodel as spec;

use crate::{ClassNo, DataType, FeatureKind, FeatureNo, Meta};
use hs_expr::Value;

impl Meta {
    /// The features of the class, inherited ones first.
    pub fn features_of(&self, class: ClassNo) -> &[FeatureNo]
        ensures { result.now ≡ spec.features_of self.now class }
    {
        match self.class(class) {
            Some(class) => class.features.as_slice(),
            None => &[],
        }
    }

    /// The class that the reference leads to; none of an attribute.
    pub fn target_of(&self, feature: FeatureNo) -> Option<ClassNo>
        ensures { result ≡ spec.target_of self.now feature }
    {
        match &self.feature(feature)?.kind {
            FeatureKind::Reference { target, .. } => Some(*target),
            FeatureKind::Attribute { .. } => None,
        }
    }

    /// The data type of the attribute; none of a reference.
    pub fn type_of(&self, feature: FeatureNo) -> Option<DataType>
        ensures { result ≡ spec.type_of self.now feature }
    {
        match &self.feature(feature)?.kind {
            FeatureKind::Attribute { data_type, .. } => Some(*data_type),
            FeatureKind::Reference { .. } => None,
        }
    }

    /// The value that the attribute has where none is given.
    pub fn default_of(&self, feature: FeatureNo) -> Option<&Value>
        ensures { option_copied result ≡ spec.default_of self.now feature }
    {
        match &self.feature(feature)?.kind {
            FeatureKind::Attribute { default, .. } => Some(default),
            FeatureKind::Reference { .. } => None,
        }
    }
}
