//! Metamodels.

use hs_expr::{List, Text, Value};

/// The place of a class in its metamodel.
pub type ClassNo = u16;

/// The place of a feature in its metamodel.
pub type FeatureNo = u16;

/// A metamodel as plain data, after Ecore: classes, and the attributes and references that they
/// own.
#[derive(Debug, Drop)]
pub struct Metamodel {
    /// The version of the metamodel's meaning: 1 reads bounds and containment, and guards neither.
    pub format: u8,
    pub classes: List<Class>,
    /// All attributes and references, class by class; of one class its attributes come first.
    pub features: List<Feature>,
}

/// A class, concrete or abstract.
#[derive(Debug, Drop)]
pub struct Class {
    pub name: Text,
    pub is_abstract: bool,
    /// Its direct supertypes, in written order.
    pub supers: List<ClassNo>,
    /// Its features: the inherited ones, supertype by supertype in order, each once, then its own.
    pub features: List<FeatureNo>,
}

/// A feature is known by its owning class and its name.
#[derive(Debug, Drop)]
pub struct Feature {
    pub owner: ClassNo,
    pub name: Text,
    pub kind: FeatureKind,
}

#[derive(Debug, Drop)]
pub enum FeatureKind {
    Attribute {
        data_type: DataType,
        default: Value,
    },
    Reference {
        target: ClassNo,
        containment: bool,
        /// The least number of targets that a source has.
        lower: u64,
        /// The greatest number of targets; none where it is unbounded.
        upper: Option<u64>,
    },
}

/// Ecore's data types that an attribute may have: whole numbers of 32 and of 64 bits with a sign,
/// truth values, and texts.
#[derive(Clone, Copy, PartialEq, Eq, Debug)]
pub enum DataType {
    EInt,
    ELong,
    EBoolean,
    EString,
}
