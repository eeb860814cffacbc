//! The tokens of rule and unit text: names, literals, reserved words and signs, each with its span.
//!
//! [`tokenize`] reads characters as tokens, the longest at each position, or reports the first one
//! that is wrong. `specs/Tokens.antt` defines what a token is, and `specs/Lexing.antt` which tokens
//! a text is.
#![tactic(auto)]

mod fault;
mod laws;
mod scan;
mod token;

pub use fault::{FaultKind, TextFault};
pub use laws::{each_is_lexed, lexed_once, lexemes_begin, positions_move};
pub use scan::{Element, Scanned, tokenize};
pub use token::{Kind, Position, Token};
