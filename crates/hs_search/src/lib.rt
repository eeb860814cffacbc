//! One search, proved once: the least list of numbers that is good, in lexicographic order.
//!
//! What is searched is a [`Choice`]: how many numbers, which number may come next, and which
//! lists are good. [`least`] gives the least choice, [`next_after`] the least that comes
//! after a given list, and [`exists`] says whether there is one. None of them takes memory.
#![tactic(auto)]

mod choice;
mod search;

pub use choice::{Choice, MOST, Numbers};
pub use search::{exists, least, next_after};
