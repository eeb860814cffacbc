//! Requests.

ghost use Rattle.std.specs.Prelude.{◌≤◌};
ghost use Rattle.std.proofs.Common.{rules};

use hs_expr::{List, Plain, Text, Value};

/// An argument: a value, or an object by its name.
#[derive(Clone, PartialEq, Eq, Debug, Drop)]
pub enum Arg {
    Value(Value),
    Object(Text),
}

/// An argument with the name of its parameter.
#[derive(Clone, PartialEq, Eq, Debug, Drop)]
pub struct NamedArg {
    pub name: Text,
    pub arg: Arg,
}

/// Arguments, each name once, in byte order.
#[derive(Clone, PartialEq, Eq, Debug, Drop)]
pub struct Args {
    pub list: List<NamedArg>,
}

/// An out parameter with the name of its object.
#[derive(Debug, Drop)]
pub struct Out {
    pub parameter: Text,
    pub object: Text,
}

/// What a call gives back: the out parameters that have a value, each name once, in byte order.
#[derive(Debug, Drop)]
pub struct Outs {
    pub list: List<Out>,
}

/// What a session asks for: a call of a rule or a unit.
#[derive(Debug, Drop)]
pub struct Request {
    pub call: Text,
    pub args: Args,
    /// How many units of work the call may take: 1 to 100,000.
    pub fuel: u32,
    /// Whether all of its changes are kept or none.
    pub group: bool,
    ghost some_fuel: { 1 ≤ fuel },
    ghost fuel_bound: { fuel ≤ 100000 },
}

impl Plain for Arg {
    ghost copies = { Prim.search rules };
}

impl Plain for NamedArg {
    ghost copies = { Prim.search rules };
}

impl Plain for Args {
    ghost copies = { Prim.search rules };
}
