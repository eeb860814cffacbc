//! Laws of the definitions, and examples of them.
//!
//! Each law is the contract of a function that does nothing: what its clauses say is true of every
//! metamodel, graph, rule, match and journal. They are the reasons to believe that the definitions
//! in the crates below say what they should, and crates above rest on them.
#![tactic(auto)]

mod conformance;
mod evaluation;
mod examples;
mod groups;
mod hosts;
mod journals;
mod order;
mod refusals;
mod sparing;
mod steps;

pub use conformance::conformance_is_an_order;
pub use evaluation::{no_value_means_overflow, values_by_form, values_have_their_kinds};
pub use examples::{
    arguments, conditions, copies, dangling, expressions, graphs, journals_tried, metamodels,
    orders, plain_matches, plans, rules_refused, steps_made, transfers,
};
pub use groups::{entries_refused, groups_tried};
pub use hosts::{hosts_tried, plans_can_be_installed};
pub use journals::{
    attempts_stay_typed, journals_go_on, journals_stay_lawful, lawful_or_not,
    missed_attempts_change_nothing,
};
pub use order::{least_is_unique, order_is_total};
pub use refusals::{
    arguments_refused, copies_tried, elements, graphs_refused, limits_refused, malformed_rules,
    metamodels_refused, not_spared,
};
pub use sparing::spared_matches_stay_valid;
pub use steps::{
    nothing_dangles_without_deletion, plans_fit, steps_bring_what_they_name,
    steps_change_what_they_name, steps_stay_typed,
};
