//! Metamodels as they are written, the first fault of what is written, and the metamodel that it
//! denotes where it has none.
#![tactic(auto)]

mod checking;
mod declared;
pub mod examples;
mod fault;
mod features;
mod inherited;
pub mod laws;
mod metamodel;
mod names;
mod numbers;
mod raw;
mod supers;

pub use fault::{ModelFault, ModelFaultKind, ModelPlace};
pub use metamodel::{build, check};
pub use raw::{RawAttribute, RawClass, RawDefault, RawMeta, RawReference};
