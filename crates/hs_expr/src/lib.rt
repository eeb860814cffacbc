//! Values and texts: what every other crate is written with.
//!
//! Texts, lists and stacks that contracts see as plain lists ([`Text`], [`List`], [`Stack`]), the
//! traits that give derived clones and comparisons their meaning in clauses ([`Plain`], [`Exact`]),
//! attribute values ([`Value`], [`Kind`]), checked expressions ([`Expr`]), expressions by names as
//! a text has them ([`NameExpr`]), the loop that gives the first fault of a list ([`check_each`]),
//! and why a call gives no value ([`Failure`]).
#![tactic(auto)]

mod check;
mod exact;
mod expr;
mod failure;
mod list;
mod name_expr;
mod piece;
mod stack;
mod text;
mod value;

pub use check::{check_each, fault_if};
pub use exact::{Exact, Plain};
pub use expr::{Expr, MAX_NESTING, Sign, SlotRead};
pub use failure::{Failure, as_failure, demand, fault_as, needed, value_of};
pub use list::List;
pub use name_expr::NameExpr;
pub use piece::{Name, Piece, Span};
pub use stack::Stack;
pub use text::Text;
pub use value::{Kind, Value};
