//! Objects as they are written, before anything is asked of them. Their texts are borrowed.

use crate::borrowed::{TextRef, ValueRef};
use hs_expr::List;

/// An object as it is written: its class, its attributes and the targets of its references by name.
#[derive(Debug, Drop)]
pub struct RawObject<'a> {
    pub name: TextRef<'a>,
    pub class: TextRef<'a>,
    /// In the order of their names' bytes, each name once.
    pub attrs: List<RawAttr<'a>>,
    /// In the order of their names' bytes, each name once.
    pub refs: List<RawRef<'a>>,
}

/// What is written for an attribute.
#[derive(Debug, Drop)]
pub struct RawAttr<'a> {
    pub name: TextRef<'a>,
    pub value: RawValue<'a>,
}

/// What is written as a value.
#[derive(Debug, Drop)]
pub enum RawValue<'a> {
    Given(ValueRef<'a>),
    /// A list, an object or null, none of which is a value.
    NoValue,
}

/// The targets that are written for a reference, in order; one that is repeated is a parallel edge.
#[derive(Debug, Drop)]
pub struct RawRef<'a> {
    pub name: TextRef<'a>,
    pub targets: List<TextRef<'a>>,
}
