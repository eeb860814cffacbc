//! Faults of rules and units, with their words.

ghost use Rattle.std.specs.Prelude.{◌≡◌};
ghost use Rattle.hs_faults.specs.Places.{fault_at, unit_fault_at};
ghost use Rattle.hs_faults.specs.Words as spec;

use hs_expr::Span;

/// What is wrong in a rule or a unit.
#[derive(Clone, Copy, PartialEq, Eq, Debug)]
pub enum RuleFaultKind {
    /// A name is declared again, or a slot is set again.
    Twice,
    UnknownClass,
    /// No concrete class conforms to the class, or a node of an abstract class is created.
    NoConcrete,
    /// A parameter isn't one that a rule can have, or its node is of another class.
    ArgMismatch,
    /// There is no such node here.
    UnknownNode,
    /// The source's class has no such reference.
    UnknownReference,
    /// The reference doesn't lead to the target's class, or an end has a mark that the edge can't
    /// join.
    BadEnds,
    /// A deleted node's attribute is set.
    WriteOnDeleted,
    /// A multi block sets an attribute of a node of the kernel.
    KernelSlotInCopy,
    UnknownAttribute,
    /// A lone name is no data parameter.
    UnknownName,
    /// A slot is read whose node isn't on the left side.
    NotRead,
    /// An expression, or an operand in it, has a kind that its place doesn't take.
    BadKind,
    /// A call names no rule and no unit.
    UnknownUnit,
    /// A unit calls itself, by one call or more.
    UnitCycle,
    /// There is more of something than a rule or a unit may have, or there are too many of them.
    Limit,
}

impl RuleFaultKind {
    /// The word by which the kind is reported.
    pub fn word(self) -> &'static str
        ensures { result.now ≡ spec.fault_word self }
    {
        match self {
            RuleFaultKind::Twice => "twice",
            RuleFaultKind::UnknownClass => "unknownclass",
            RuleFaultKind::NoConcrete => "noconcrete",
            RuleFaultKind::ArgMismatch => "argmismatch",
            RuleFaultKind::UnknownNode => "unknownnode",
            RuleFaultKind::UnknownReference => "unknownreference",
            RuleFaultKind::BadEnds => "badends",
            RuleFaultKind::WriteOnDeleted => "writeondeleted",
            RuleFaultKind::KernelSlotInCopy => "kernelslotincopy",
            RuleFaultKind::UnknownAttribute => "unknownattribute",
            RuleFaultKind::UnknownName => "unknownname",
            RuleFaultKind::NotRead => "notread",
            RuleFaultKind::BadKind => "badkind",
            RuleFaultKind::UnknownUnit => "unknownunit",
            RuleFaultKind::UnitCycle => "unitcycle",
            RuleFaultKind::Limit => "limit",
        }
    }
}

/// What a fault is in.
#[derive(Clone, Copy, PartialEq, Eq, Debug)]
pub enum Within {
    Rule,
    Unit,
}

/// What is wrong in a rule or a unit, and where: the line and the column count from 1.
#[derive(Clone, Copy, PartialEq, Eq, Debug)]
pub struct RuleFault {
    pub within: Within,
    pub line: usize,
    pub column: usize,
    pub kind: RuleFaultKind,
}

/// This is wrong in a rule, at this place.
pub fn fault_at(span: Span, kind: RuleFaultKind) -> RuleFault
    ensures { result ≡ fault_at span kind }
{
    RuleFault {
        within: Within::Rule,
        line: span.line,
        column: span.column,
        kind,
    }
}

/// This is wrong in a unit, at this place.
pub fn unit_fault_at(span: Span, kind: RuleFaultKind) -> RuleFault
    ensures { result ≡ unit_fault_at span kind }
{
    RuleFault {
        within: Within::Unit,
        line: span.line,
        column: span.column,
        kind,
    }
}
