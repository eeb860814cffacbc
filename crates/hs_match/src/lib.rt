//! How matches are found in a typed graph: image by image, the least one first.
//!
//! [`first_match`] gives the least valid match of a rule that only adds, and nothing exactly where
//! no match is valid; [`is_applicable`] says whether there is one; [`is_in_order`] and [`is_small`]
//! are the tests of what it asks. Under it lies [`Extending`], the search for an extension of a
//! match by further nodes and edges, of which a match of a rule is the case that begins from
//! nothing: with `hs_search` it gives the least extension, the next one and whether there is one.
//! Candidates for an image are found along an edge of the graph where the pattern has one to an
//! image that is known, and else among the objects.
#![tactic(auto)]

mod candidates;
mod choice;
mod extending;
mod form;
mod link;
mod lookup;
mod matching;

pub use extending::Extending;
pub use form::{is_in_order, is_small};
pub use matching::{first_match, is_applicable};
