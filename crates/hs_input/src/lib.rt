//! What the program is given: a bundle's bytes, read as a metamodel with a graph over it, the rules
//! and units of a text that is right, and the requests of its sessions.
//!
//! [`read_input`] gives all of it, or the first [`Refusal`]: the bundle's own fault, the first
//! fault of its text, the first fault of its rules and units, or that it asks for what isn't built.
//! `specs/Refusing.antt` says each refusal's cause, [`refused_once`] that there is one at most, and
//! [`Refusal::line`] is the line that reports it.
#![tactic(auto)]

mod laws;
mod lines;
mod reading;
mod refusal;
mod sessions;

pub use laws::{calls_tried, refused_once};
pub use reading::{Input, read_input};
pub use refusal::Refusal;
