//! Typed graphs.

ghost use Rattle.std.proofs.Common.{rules};

use crate::{ClassNo, FeatureNo};
use hs_expr::{Exact, List, Plain, Text, Value};

/// The number of an object: given when it came, and never given again.
pub type ObjectNo = u32;

/// The number of an edge: given when it came, and never given again.
pub type EdgeNo = u32;

/// A typed graph: objects and edges by number, and the numbers that come next.
#[derive(Clone, Debug, Drop)]
pub struct Graph {
    /// In the order of their numbers.
    pub objects: List<Object>,
    /// In the order of their numbers.
    pub edges: List<Edge>,
    pub next_object: u64,
    pub next_edge: u64,
    /// The k of the next new object's name `#k`.
    pub next_name: u64,
}

/// An object of a concrete class, with its slots.
#[derive(Clone, PartialEq, Eq, Debug, Drop)]
pub struct Object {
    pub number: ObjectNo,
    pub name: Text,
    pub class: ClassNo,
    /// One for each attribute of its class, in the class's order.
    pub slots: List<Slot>,
}

/// The value that an object has for an attribute.
#[derive(Clone, PartialEq, Eq, Debug, Drop)]
pub struct Slot {
    pub attribute: FeatureNo,
    pub value: Value,
}

/// An edge from a source to a target. Several edges may have one source, reference and target.
#[derive(Clone, Copy, PartialEq, Eq, Debug)]
pub struct Edge {
    pub number: EdgeNo,
    pub source: ObjectNo,
    pub reference: FeatureNo,
    pub target: ObjectNo,
}

impl Plain for Slot {
    ghost copies = { Prim.search rules };
}

impl Exact for Slot {
    ghost equals = { Prim.search rules };
}

impl Plain for Object {
    ghost copies = { Prim.search rules };
}

impl Plain for Edge {
    ghost copies = { Prim.search rules };
}

impl Plain for Graph {
    ghost copies = { Prim.search rules };
}
