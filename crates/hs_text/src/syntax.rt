//! The syntax of a text, with its spans.

ghost use Rattle.hs_text.specs.WellFormed.{AreWellFormed, AreWellFormed-prop};

use hs_expr::{List, Name, NameExpr, Span, Text};

/// Whether a parameter is given or given back.
#[derive(Clone, Copy, PartialEq, Eq, Debug)]
pub enum Direction {
    In,
    Out,
}

/// A parameter of a rule or a unit. Its kind is `int`, `bool`, `text` or a class.
#[derive(Debug, Drop)]
pub struct Param {
    pub direction: Direction,
    pub name: Name,
    pub kind: Name,
}

/// What a rule does with an element of its own.
#[derive(Clone, Copy, PartialEq, Eq, Debug)]
pub enum Mark {
    Preserve,
    Create,
    Delete,
}

/// A node or an edge.
#[derive(Debug, Drop)]
pub enum Element {
    Node {
        name: Name,
        class: Name,
    },
    Edge {
        source: Name,
        target: Name,
        reference: Name,
    },
}

/// An item of a rule or of a multi block.
#[derive(Debug, Drop)]
pub enum Simple {
    Marked {
        mark: Mark,
        element: Element,
    },
    Set {
        node: Name,
        attribute: Name,
        value: NameExpr,
    },
    /// The condition, and where the word `where` is.
    Where {
        word: Span,
        test: NameExpr,
    },
}

/// An item of a rule.
#[derive(Debug, Drop)]
pub enum Item {
    Simple(Simple),
    Forbid(List<Element>),
    Require(List<Element>),
    Multi(List<Simple>),
}

/// A rule, with its items in written order.
#[derive(Debug, Drop)]
pub struct Rule {
    pub name: Name,
    pub params: List<Param>,
    pub items: List<Item>,
}

/// What a call gives to a parameter.
#[derive(Debug, Drop)]
pub enum Atom {
    /// An integer, with or without a minus sign before it.
    Int { minus: bool, value: i64, span: Span },
    Text { value: Text, span: Span },
    Bool { value: bool, span: Span },
    /// A parameter or a variable of the unit.
    Name(Name),
}

/// How a call ties a parameter of what it calls.
#[derive(Debug, Drop)]
pub enum Bind {
    /// `parameter = value`: what is given to it.
    Give { parameter: Name, value: Atom },
    /// `parameter > variable`: where what it gives back goes.
    Take { parameter: Name, variable: Name },
}

/// A call of a rule or a unit.
#[derive(Debug, Drop)]
pub struct Call {
    pub callee: Name,
    pub binds: List<Bind>,
}

/// How often an iterated unit runs its call.
#[derive(Debug, Drop)]
pub enum Count {
    Int { value: i64, span: Span },
    Param(Name),
}

/// What a unit does with its calls.
#[derive(Debug, Drop)]
pub enum Body {
    Sequential(List<Call>),
    Independent(List<Call>),
    Priority(List<Call>),
    Conditional {
        test: Call,
        then: Call,
        otherwise: Option<Call>,
    },
    Loop(Call),
    Iterated {
        count: Count,
        call: Call,
    },
}

/// A unit.
#[derive(Debug, Drop)]
pub struct Unit {
    pub name: Name,
    pub params: List<Param>,
    pub body: Body,
}

/// A rule or a unit.
#[derive(Debug, Drop)]
pub enum Definition {
    Rule(Rule),
    Unit(Unit),
}

/// A text's rules and units, in written order. Its parts are such as the grammar can have at their
/// places, and its spans are slices of a text, in order.
#[derive(Debug, Drop)]
pub struct Syntax {
    pub definitions: List<Definition>,
    pub ghost well_formed: { AreWellFormed definitions } by { AreWellFormed-prop definitions },
}
