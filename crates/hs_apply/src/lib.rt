//! What a rule does at a match.
//!
//! [`plan`] gives the plan of a match in a host, multi-rules with their copies included, without
//! drawing numbers or names; a host's `install` carries a plan out and draws them. A kernel and a
//! copy are blocks alike: what a block deletes, writes and creates is added to the plan.
#![tactic(auto)]

mod block;
mod counting;
mod dropping;
pub mod laws;
mod making;
mod planning;
mod writes;

pub use planning::plan;
