//! Rules.

ghost use Rattle.std.proofs.Common.{rules};

use crate::{ClassNo, FeatureNo};
use hs_expr::{Expr, Kind, List, Text};

/// What a rule does with an element of its pattern: preserve it, delete it, or create it.
#[derive(Clone, Copy, PartialEq, Eq, Debug)]
pub enum Mark {
    Keep,
    Drop,
    Make,
}

/// A node of a pattern.
#[derive(Debug, Drop)]
pub struct PatternNode {
    pub name: Text,
    pub class: ClassNo,
    pub mark: Mark,
}

/// An edge of a pattern, between two nodes by their numbers.
#[derive(Clone, Copy, PartialEq, Eq, Debug)]
pub struct PatternEdge {
    pub source: u16,
    pub reference: FeatureNo,
    pub target: u16,
    pub mark: Mark,
}

/// What a slot of an object holds: the value of an attribute, the edges of a bounded reference, or
/// the object's container. Format 1 of the metamodel has attributes alone.
#[derive(Clone, Copy, PartialEq, Eq, Debug)]
pub enum SlotKind {
    Attribute(FeatureNo),
    Link(FeatureNo),
    Container,
}

/// A slot that a pattern reads or writes, at a node by its number.
#[derive(Clone, Copy, PartialEq, Eq, Debug)]
pub struct PatternSlot {
    pub node: u16,
    pub kind: SlotKind,
    pub written: bool,
}

/// Nodes, edges and slots, each with its mark. The left side has what is kept or dropped.
#[derive(Debug, Drop)]
pub struct Shape {
    pub nodes: List<PatternNode>,
    pub edges: List<PatternEdge>,
    /// By node number, then by the attribute's place in its class.
    pub slots: List<PatternSlot>,
}

/// A forbid or require pattern. Its nodes and edges are numbered after those of the rule's kernel.
#[derive(Debug, Drop)]
pub struct Part {
    pub nodes: List<PatternNode>,
    pub edges: List<PatternEdge>,
}

/// The value that a node's attribute gets.
#[derive(Debug, Drop)]
pub struct SetItem {
    pub node: u16,
    pub attribute: FeatureNo,
    pub value: Expr,
}

/// A multi-rule: applied once for each of its matches that extends the rule's match. Its nodes and
/// edges are numbered after those of the rule's kernel.
#[derive(Debug, Drop)]
pub struct Multi {
    pub shape: Shape,
    pub wheres: List<Expr>,
    pub sets: List<SetItem>,
}

/// Whether a parameter is given to a call or given back by it.
#[derive(Clone, Copy, PartialEq, Eq, Debug)]
pub enum Direction {
    In,
    Out,
}

/// What a parameter takes: a value of a kind, or an object that conforms to a class.
#[derive(Clone, Copy, PartialEq, Eq, Debug)]
pub enum ParamKind {
    Data(Kind),
    Object(ClassNo),
}

/// A parameter of a rule or a unit. A rule's parameter for an object has the name of its node.
#[derive(Debug, Drop)]
pub struct Param {
    pub direction: Direction,
    pub name: Text,
    pub kind: ParamKind,
}

/// A rule, after Henshin: a kernel, its forbid and require patterns, its multi-rules, and the
/// conditions and changes of attributes of the kernel.
#[derive(Debug, Drop)]
pub struct Rule {
    pub name: Text,
    pub params: List<Param>,
    pub shape: Shape,
    pub forbids: List<Part>,
    pub needs: List<Part>,
    pub multis: List<Multi>,
    pub wheres: List<Expr>,
    pub sets: List<SetItem>,
}
