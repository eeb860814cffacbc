//! Units.

use crate::Param;
use hs_expr::{List, Text, Value};

/// A rule or a unit, by its place in the rule set.
#[derive(Clone, Copy, PartialEq, Eq, Debug)]
pub enum Callee {
    Rule(u16),
    Unit(u16),
}

/// What a call hands to a parameter: a value, or what a parameter of the calling unit holds.
#[derive(Clone, PartialEq, Eq, Debug, Drop)]
pub enum Atom {
    Value(Value),
    Name(Text),
}

/// How a call ties a parameter of its callee.
#[derive(Clone, PartialEq, Eq, Debug, Drop)]
pub enum Bind {
    /// `parameter = atom`: what is given to it.
    Give { parameter: Text, atom: Atom },
    /// `parameter > variable`: where what it gives back goes.
    Take { parameter: Text, variable: Text },
}

/// A call inside a unit.
#[derive(Debug, Drop)]
pub struct Call {
    pub callee: Callee,
    pub binds: List<Bind>,
}

/// How often an iterated unit runs its call.
#[derive(Clone, PartialEq, Eq, Debug, Drop)]
pub enum Count {
    Literal(i64),
    Param(Text),
}

/// What a unit does with its calls, after Henshin.
#[derive(Debug, Drop)]
pub enum Body {
    Sequential(List<Call>),
    Independent(List<Call>),
    Priority(List<Call>),
    Conditional {
        test: Call,
        then: Call,
        otherwise: Option<Call>,
    },
    Loop(Call),
    Iterated {
        count: Count,
        call: Call,
    },
}

/// A unit: a way to run rules and other units.
#[derive(Debug, Drop)]
pub struct Unit {
    pub name: Text,
    pub params: List<Param>,
    pub body: Body,
}
