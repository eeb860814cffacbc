//! What a text of rules and units means.
//!
//! [`check`] gives the rules and the units of a text without faults, by numbers, or the text's
//! first fault. A rule's nodes and statements are gone through once for each of its parts, which
//! are few; names within a rule are looked for among its nodes, which are few too.
#![tactic(auto)]

mod block;
mod checking;
mod elements;
mod examples;
mod expressions;
mod laws;
mod parameters;
mod rules;
mod slots;
mod units;

pub use checking::check;
pub use examples::{binds_tried, rule_tried, sets_tried, slots_tried, units_tried};
pub use laws::{names_are_found, nothing_is_left_out, sets_are_formed};
