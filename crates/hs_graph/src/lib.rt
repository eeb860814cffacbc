//! Objects as they are written over a metamodel, the first fault of what is written, the typed
//! graph that it denotes where it has none, and the problems of a typed graph.
#![tactic(auto)]

mod attrs;
mod borrowed;
mod classes;
mod containment;
mod edges;
pub mod examples;
mod fault;
mod graph;
mod index;
pub mod laws;
mod lookups;
mod names;
mod numbers;
mod objects;
mod problem;
mod raw;
mod refs;
mod validation;
mod values;

pub use borrowed::{Scalar, TextRef, ValueRef};
pub use fault::{GraphFault, GraphFaultKind, GraphPlace};
pub use graph::build;
pub use index::{EdgeIndex, ObjectIndex, edges_of, name_of, object_of, objects_of, outgoing_of};
pub use problem::{Problem, ProblemKind};
pub use raw::{RawAttr, RawObject, RawRef, RawValue};
pub use validation::problems;
