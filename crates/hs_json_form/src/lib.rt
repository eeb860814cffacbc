//! The forms of JSON values, each with the value that it gives or the first fault and its path.
//!
//! A reader is made of steps: an object with known keys ([`only_known`]), keys that have to be
//! there ([`member_at`]), texts, integers and truth values, lists ([`list_of`]) and members
//! ([`members_of`]). The fault of a form is the [`Path`] of the value that is at fault; what is
//! read at a key or at an index has it reported from there ([`at_key`]). The definitions of the
//! same names say what is read.
#![tactic(auto)]

mod failure;
mod form;
mod path;
mod reading;

pub use failure::fault_with;
pub use form::{at_key, integer_of, member_at, only_known, text_of, truth_of};
pub use path::{Path, Step};
pub use reading::{integer_at, list_at, list_of, members_at, members_of, text_at, truth_at};
