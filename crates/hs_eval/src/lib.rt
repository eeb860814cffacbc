//! The values of expressions, and their checking.
//!
//! An expression reads slots and parameters through the trait [`Env`], and its value there is a
//! [`ValueRef`], whose text is lent. [`eval`] takes no memory. [`MatchEnv`] is what a rule's
//! expressions read at a match.
//!
//! [`check`] gives the kind of an expression by names, over a [`Scope`] that says what the names
//! denote, and the expression by numbers where it nests at most 32 deep, or reports its first
//! fault.
#![tactic(auto)]

mod checked;
mod checks;
mod evaluate;
mod fault;
mod joining;
mod kinds;
mod laws;
mod leaves;
mod match_env;
mod nests;
mod operand;
mod operators;
mod reading;
mod scope;
mod shallow;
mod value_ref;

pub use checked::Checked;
pub use checks::check;
pub use evaluate::eval;
pub use fault::{ExprFault, Wrong};
pub use laws::{checked_has_its_kind, checked_is_worth_the_same, kept_expressions_are_checked};
pub use match_env::MatchEnv;
pub use nests::nests_within;
pub use reading::Env;
pub use scope::Scope;
pub use value_ref::ValueRef;
