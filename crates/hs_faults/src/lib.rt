//! The faults of rules and units, over a metamodel.
//!
//! A rule is checked check by check, and what is reported is the first fault of the list that
//! `specs/Faults.antt` gives; where there is none, [`RuleContents`] has what the rule declares and
//! states, its expressions by numbers. The nodes of a rule and of its blocks are taken as one list
//! ([`nodes`]), which the passes look into by name.
#![tactic(auto)]

mod arguments;
mod callees;
mod calls;
mod checking;
mod cycles;
mod data_parameters;
mod declarations;
mod edges;
mod examples;
mod fault;
mod name_index;
mod names;
mod names_seen;
mod nodes;
mod numbers;
mod param_nodes;
mod rule;
mod rules;
mod scope;
mod signature;
mod sizes;
mod statement_faults;
pub mod statements;
mod units;
mod written;

pub use checking::{check, check_units};
pub use edges::same_block;
pub use examples::{calls_tried, cycles_tried, edges_tried, names_tried, sets_tried, units_tried};
pub use fault::{RuleFault, RuleFaultKind, Within};
pub use names::{class_number, data_named, feature_named};
pub use nodes::{BlockId, DeclaredNode};
pub use rule::RuleContents;
pub use rules::check_rules;
