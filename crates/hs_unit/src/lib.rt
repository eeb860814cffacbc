//! Units: what a call does with its attempts.
//!
//! A course says how a call of a rule or a unit ends, over the outcomes of its attempts and
//! with its fuel: it is done, has failed, is out of fuel, or asks for a further attempt. Reports
//! are stated by courses.
#![tactic(auto)]

mod examples;
mod outcome;

pub use examples::{calls_tried, turns_tried, units_tried};
pub use outcome::Outcome;
