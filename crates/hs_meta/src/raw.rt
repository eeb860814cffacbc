//! Metamodels as they are written, before anything is asked of them.

use hs_expr::{List, Text, Value};

/// A metamodel as it is written: its classes by their names.
#[derive(Debug, Drop)]
pub struct RawMeta {
    /// The version of the metamodel's meaning.
    pub format: u8,
    pub classes: List<RawClass>,
}

/// A class as it is written, its supertypes by name.
#[derive(Debug, Drop)]
pub struct RawClass {
    pub name: Text,
    pub is_abstract: bool,
    pub supers: List<Text>,
    pub attributes: List<RawAttribute>,
    pub references: List<RawReference>,
}

/// An attribute as it is written, its data type by name.
#[derive(Debug, Drop)]
pub struct RawAttribute {
    pub name: Text,
    pub data_type: Text,
    pub default: RawDefault,
}

/// What is written as an attribute's default.
#[derive(Debug, Drop)]
pub enum RawDefault {
    LeftOut,
    Given(Value),
    /// A list, an object or null, none of which is a value.
    NoValue,
}

/// A reference as it is written, its target by name.
#[derive(Debug, Drop)]
pub struct RawReference {
    pub name: Text,
    pub target: Text,
    pub containment: bool,
    pub lower: i64,
    /// -1 where it is unbounded.
    pub upper: i64,
}
