//! JSON of bundles: a metamodel, a typed graph over it, a text of rules, and what is asked of them.
//!
//! [`read_bundle`] gives what a bundle's bytes hold, or its first fault with its path from the
//! bundle; [`BundleFault::line`] is the fault's line. [`problems_text`] lists the problems of a
//! graph. [`read_graph`], [`write_graph`] and [`problems`] are those of the crates below.
#![tactic(auto)]

mod fault;
mod problem_lines;
mod reading;

pub use fault::BundleFault;
pub use hs_graph::problems;
pub use hs_json_model::{read_graph, write_graph};
pub use problem_lines::problems_text;
pub use reading::{Bundle, read_bundle};
