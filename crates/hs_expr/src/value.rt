//! Values and their kinds.

ghost use Rattle.std.proofs.Common.{rules};

use crate::{Exact, Plain, Text};

/// What an attribute, a parameter or an expression has: a whole number of 64 bits with a sign, a
/// truth value, or a text.
#[derive(Clone, PartialEq, Eq, Debug, Drop)]
pub enum Value {
    Int(i64),
    Bool(bool),
    Text(Text),
}

/// The kind of a value.
#[derive(Clone, Copy, PartialEq, Eq, Debug)]
pub enum Kind {
    Int,
    Bool,
    Text,
}

impl Plain for Value {
    ghost copies = { Prim.search rules };
}

impl Exact for Value {
    ghost equals = { Prim.search rules };
}

impl Plain for Kind {
    ghost copies = { Prim.search rules };
}

impl Exact for Kind {
    ghost equals = { Prim.search rules };
}
