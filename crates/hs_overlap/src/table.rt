//! What tables of conflicts are asked for, and what their rows are where rules have multi-rules.

use hs_types::{ClassNo, FeatureNo, SlotKind};

/// A rule of a rule set, or its inverse.
#[derive(Clone, Copy, PartialEq, Eq, Debug)]
pub struct Side {
    pub rule: u16,
    pub inverse: bool,
}

/// Where the deleted element of a reason has to be: anywhere on the second left side, in a require
/// part, or in a forbid part and nowhere else.
#[derive(Clone, Copy, PartialEq, Eq, Debug)]
pub enum Need {
    Use,
    Require,
    Forbid,
}

/// A kind that one rule deletes and that another one uses. Two classes are joined where some
/// concrete class conforms to both.
#[derive(Clone, Copy, PartialEq, Eq, Debug)]
pub enum KindPair {
    Class(ClassNo, ClassNo),
    Reference(FeatureNo),
    Slot(SlotKind),
}

/// Why reasons aren't listed: their number could be too large, they are too many, or there is no
/// memory.
#[derive(Clone, Copy, PartialEq, Eq, Debug)]
pub enum TableFault {
    Weight,
    Rows,
    NoMemory,
}
