//! Conflict reasons, after Born, Lambers, Strüber and Taentzer (ICGT 2017).
//!
//! A conflict reason of two rules is a span between the deletion context of the first and the left
//! side of the second: where and how an application of the first can delete what the second needs.
//! [`laws::glue`] says that a span is a reason exactly where it extends to a closed overlap, so no
//! graph is made to decide it.
#![tactic(auto)]

mod bound;
mod closed;
mod context;
mod elements;
pub mod examples;
mod inversion;
pub mod laws;
mod listed;
mod pair;
mod partners;
mod pattern;
mod search;
mod table;

pub use bound::{MAX_WEIGHT, weight};
pub use closed::is_closed;
pub use context::{SubShape, deletion_context};
pub use inversion::inverse;
pub use pair::{Pair, Span};
pub use pattern::{Pattern, Whole};
pub use table::{KindPair, Need, Side, TableFault};
