//! Entries of a journal.

ghost use Rattle.std.specs.Prelude.{◌≡◌, ◌<◌, ◌^◌, map, true};
ghost use Rattle.hs_expr.specs.Lexicographic.{rises};

use crate::{Args, EdgeNo};
use hs_expr::{List, Text, Value};

/// An entry of the journal: what one request of one session did.
#[derive(Debug, Drop)]
pub struct Entry {
    pub session: u32,
    pub request: u32,
    pub what: What,
}

#[derive(Debug, Drop)]
pub enum What {
    /// A single attempt.
    One(Tried),
    /// A grouped request: its attempts, and whether they are kept.
    Group { attempts: List<Tried>, done: bool },
}

/// One attempt to apply a rule.
#[derive(Debug, Drop)]
pub struct Tried {
    /// Its number among the attempts of its request, from 0 on.
    pub attempt: u64,
    /// The rule, by its place in the rule set.
    pub rule: u16,
    pub args: Args,
    pub outcome: Outcome,
    ghost attempt_bound: { attempt < 2 ^ 63 },
}

#[derive(Debug, Drop)]
pub enum Outcome {
    /// The rule was applied at this match.
    Applied {
        found: MatchNames,
        /// The names of the created objects, in the plan's order.
        new: List<Text>,
        /// The values before of the written slots, in the order of the sets.
        old: List<Value>,
        /// The deleted objects, in the plan's order.
        gone: List<Gone>,
    },
    /// No match was valid.
    Missed,
}

/// A match with its objects by name and its edges by number.
#[derive(Debug, Drop)]
pub struct MatchNames {
    pub nodes: List<Text>,
    pub edges: List<EdgeNo>,
    pub copies: List<List<ExtensionNames>>,
}

/// An extension with its objects by name and its edges by number.
#[derive(Debug, Drop)]
pub struct ExtensionNames {
    pub nodes: List<Text>,
    pub edges: List<EdgeNo>,
}

/// An object that was deleted, as it was. It is given by names, so that an entry can be read even
/// where these names denote nothing.
#[derive(Debug, Drop)]
pub struct Gone {
    pub name: Text,
    /// The name of its class.
    pub class: Text,
    /// Its values by attribute, each name once, in byte order.
    pub values: List<NamedValue>,
    ghost in_order: { rises (map (λ value. value.attribute) values) ≡ true },
}

/// A value with the name of its attribute.
#[derive(Debug, Drop)]
pub struct NamedValue {
    pub attribute: Text,
    pub value: Value,
}

/// Why an entry isn't lawful, in the order in which it is asked.
#[derive(Clone, Copy, PartialEq, Eq, Debug)]
pub enum Cause {
    /// Its place, session, request or an attempt's number isn't the next.
    Number,
    /// There is no such rule, or the arguments don't fit it.
    Rule,
    /// It says applied, and the match that it names isn't valid.
    Match,
    /// It says missed, and some match is valid.
    Valid,
    /// The new names aren't the next, or too many objects or edges would be drawn.
    New,
    /// The values or the deleted objects aren't those before.
    Old,
}
