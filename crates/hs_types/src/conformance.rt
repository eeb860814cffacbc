//! Conformance, closed in a table.

ghost use Rattle.std.specs.Prelude.{◌≡◌, ◌↔◌, IsTrue};
ghost use Rattle.std.specs.List.{position};
ghost use Rattle.std.specs.Option.{option_copied};
ghost use Rattle.hs_expr.specs.Lists.{same_text};
ghost use Rattle.hs_types.specs.Limits.{IsSmallMeta};
ghost use Rattle.hs_types.specs.Metamodel.{Conforms, HaveCommon, IsConcrete, IsMeta, supers_of, class_at, feature_at};
ghost use Rattle.hs_types.specs.Reachability as spec;

use crate::reachability::is_in_row;
use crate::{Class, ClassNo, Feature, FeatureNo, Metamodel};
use hs_expr::{List, Text};
use std::marker::Model;

/// A metamodel with its conformance closed, so that one look-up decides whether a class conforms to
/// another. Contracts see it as the plain [`Metamodel`]; [`Meta::is_metamodel`] says that it is
/// one.
#[derive(Debug, Drop)]
pub struct Meta {
    plain: Metamodel,
    /// For each class by number, a row that says of every class whether it is below that one.
    rows: List<List<bool>>,
}

impl Model for Meta {
    ghost use Rattle.std.specs.Prelude.{◌≡◌, ◌≤◌, true, length};
    ghost use Rattle.hs_types.specs.declared.meta.Metamodel.{Metamodel};
    ghost use Rattle.hs_types.specs.declared.limits.TheConstants.{MAX_CLASSES};
    ghost use Rattle.hs_types.specs.Limits.{IsSmallMeta};
    ghost use Rattle.hs_types.specs.Metamodel.{IsMeta, supers_of};
    ghost use Rattle.hs_types.specs.Reachability as supertypes;

    ghost Value = { Metamodel };

    ghost view = { λ meta. meta.plain };

    ghost invariant = { λ meta. ∥ IsMeta meta.plain × IsSmallMeta meta.plain ∥₁
        × (meta.rows ≡ supertypes.reach_rows (supers_of meta.plain))
        × (length meta.plain.classes ≤ MAX_CLASSES) };
}

impl Meta {
    /// The metamodel, whose rows say of each class which classes reach it by supertypes.
    pub fn from_rows(plain: Metamodel, rows: List<List<bool>>) -> Meta
        requires sound { IsMeta plain }
        requires small { IsSmallMeta plain }
        requires rows { rows ≡ spec.reach_rows (supers_of plain) }
        ensures { result ≡ plain }
    {
        Meta { plain, rows }
    }

    /// What its type carries: it is a metamodel, within the limits.
    pub fn is_metamodel(&self)
        ensures sound { IsMeta self.now }
        ensures small { IsSmallMeta self.now }
    {
        let _ = &self.plain;
    }

    /// The metamodel as plain data.
    pub fn plain(&self) -> &Metamodel
        ensures { result.now ≡ self.now }
    {
        &self.plain
    }

    /// The class of this number.
    pub fn class(&self, class: ClassNo) -> Option<&Class>
        ensures { option_copied result ≡ class_at self.now class }
    {
        self.plain.classes.get(usize::from(class))
    }

    /// The number of the class of this name.
    pub fn class_named(&self, name: &Text) -> Option<ClassNo>
        ensures { result ≡ position (λ class. same_text name.now class.name) self.now.classes }
    {
        match place_of_class(self.plain.classes.as_slice(), name) {
            Some(place) => Some(place as ClassNo),
            None => None,
        }
    }

    /// The feature of this number.
    pub fn feature(&self, feature: FeatureNo) -> Option<&Feature>
        ensures { option_copied result ≡ feature_at self.now feature }
    {
        self.plain.features.get(usize::from(feature))
    }

    /// Whether the class is the other one, or reaches it by steps to a supertype.
    pub fn conforms(&self, class: ClassNo, above: ClassNo) -> bool
        ensures { IsTrue result ↔ Conforms self.now class above }
    {
        self.is_under(usize::from(class), above)
    }

    /// Whether a concrete class conforms to both.
    pub fn have_common(&self, one: ClassNo, other: ClassNo) -> bool
        ensures { IsTrue result ↔ HaveCommon self.now one other }
    {
        for c in 0..self.plain.classes.len() {
            if self.is_common(c, one, other) {
                return true;
            }
        }
        false
    }

    /// Whether it is a concrete class that conforms to both.
    fn is_common(&self, class: usize, one: ClassNo, other: ClassNo) -> bool
        ensures { IsTrue result ↔ (IsConcrete self.now class × Conforms self.now class one
            × Conforms self.now class other) }
    {
        self.is_concrete(class) && self.is_under(class, one) && self.is_under(class, other)
    }

    fn is_concrete(&self, class: usize) -> bool
        ensures { IsTrue result ↔ IsConcrete self.now class }
    {
        match self.plain.classes.get(class) {
            Some(class) => !class.is_abstract,
            None => false,
        }
    }

    /// The same as [`Meta::conforms`], of a class by its place.
    #[tactic(auto, using(crate::proofs::Under::conforms_by))]
    fn is_under(&self, class: usize, above: ClassNo) -> bool
        ensures { IsTrue result ↔ Conforms self.now class above }
    {
        let above = usize::from(above);
        class == above || self.reaches(class, above)
    }

    fn reaches(&self, class: usize, above: usize) -> bool
        ensures { IsTrue result ↔ spec.Reaches (supers_of self.now) class above }
    {
        above < self.plain.classes.len() && is_in_row(self.rows.as_slice(), class, above)
    }
}

fn place_of_class(classes: &[Class], name: &Text) -> Option<usize>
    ensures { result ≡ position (λ class. same_text name.now class.name) classes.now }
{
    classes.iter().position(|class| *name == class.name)
}
