//! The plain data that everything else speaks of: metamodels, typed graphs, rules, units, matches,
//! plans, requests and journal entries.
//!
//! The types are structs and enums with public fields, so contracts and definitions see records of
//! lists, numbers and texts; `Meta` keeps its table of conformance to itself, `ListGraph` its room.
//! Things are named by numbers: an object or an edge of a graph by the number that it was given
//! when it was made ([`ObjectNo`], [`EdgeNo`]), everything else by its index in the list that holds
//! it.
//!
//! Rules are applied to a [`Host`], a typed graph that carries plans out; a [`Finder`] searches for
//! matches in one.
#![tactic(auto)]

mod additions;
mod conformance;
mod data_type;
mod entry;
mod features;
mod graph;
mod host;
pub mod limits;
mod list_graph;
mod list_host;
mod lookup;
mod matching;
mod meta;
mod name_room;
mod pattern;
mod plan;
mod reachability;
mod request;
mod rule;
mod rule_set;
mod sorted_numbers;
mod stepping;
mod unit;
mod writing;

pub use conformance::Meta;
pub use entry::{Cause, Entry, ExtensionNames, Gone, MatchNames, NamedValue, Outcome, Tried, What};
pub use graph::{Edge, EdgeNo, Graph, Object, ObjectNo, Slot};
pub use host::{EdgeView, Finder, Host};
pub use list_graph::ListGraph;
pub use matching::{Extension, Match};
pub use meta::{Class, ClassNo, DataType, Feature, FeatureKind, FeatureNo, Metamodel};
pub use pattern::{
    count_left_edges, count_left_nodes, image_of, left_edge, left_node, left_nodes_before,
};
pub use plan::{End, MadeEdge, MadeObject, Plan, Write};
pub use reachability::{reach_rows, reaches};
pub use request::{Arg, Args, NamedArg, Out, Outs, Request};
pub use rule::{
    Direction, Mark, Multi, Param, ParamKind, Part, PatternEdge, PatternNode, PatternSlot, Rule,
    SetItem, Shape, SlotKind,
};
pub use rule_set::RuleSet;
pub use unit::{Atom, Bind, Body, Call, Callee, Count, Unit};
