//! Expressions that are read from a text and checked.

ghost use Rattle.std.specs.Prelude.{Some, None, true, false, nat_eq, if◌then◌else◌};
ghost use Rattle.std.specs.Cmp.Lexicographic.{pointwise};
ghost use Rattle.hs_expr.specs.declared.value.Kind.TheVariants as kind;

use hs_eval::{Checked, Scope, check};
use hs_expr::{Expr, Failure, Kind, NameExpr, Sign, SlotRead, Text};
use hs_text::{Definition, Item, Simple, parse};
use std::alloc::{AllocError, Global};
use std::test::Fail;

/// Parameters of each kind; a node on the left side, which has a number and a truth value, and one
/// that isn't there.
#[derive(Drop)]
struct Sample {
    number: Text,
    truth: Text,
    text: Text,
    left: Text,
    made: Text,
}

impl Scope for Sample {
    ghost names = { λ sample. record {
      param = λ name.
          if pointwise nat_eq name sample.number then Some (0, kind.Int)
          else if pointwise nat_eq name sample.truth then Some (1, kind.Bool)
          else if pointwise nat_eq name sample.text then Some (2, kind.Text)
          else None;
      node = λ name.
          if pointwise nat_eq name sample.left then Some (5, true)
          else if pointwise nat_eq name sample.made then Some (6, false)
          else None;
      attribute = λ node name.
          if pointwise nat_eq name sample.number then Some (7, kind.Int)
          else if pointwise nat_eq name sample.truth then Some (8, kind.Bool)
          else None;
    } };

    fn param(&self, name: &str) -> Option<(u16, Kind)> {
        if name == self.number.as_str() {
            Some((0, Kind::Int))
        } else if name == self.truth.as_str() {
            Some((1, Kind::Bool))
        } else if name == self.text.as_str() {
            Some((2, Kind::Text))
        } else {
            None
        }
    }

    fn node(&self, name: &str) -> Option<(u16, bool)> {
        if name == self.left.as_str() {
            Some((5, true))
        } else if name == self.made.as_str() {
            Some((6, false))
        } else {
            None
        }
    }

    fn attribute(&self, node: &str, name: &str) -> Option<(u16, Kind)> {
        if name == self.number.as_str() {
            Some((7, Kind::Int))
        } else if name == self.truth.as_str() {
            Some((8, Kind::Bool))
        } else {
            None
        }
    }
}

/// Parameters n, p and t; a left node a, a created one c; their attributes n and p.
fn make_sample(alloc: Global) -> Result<Sample, AllocError> {
    Ok(Sample {
        number: Text::from_str(alloc, "n")?,
        truth: Text::from_str(alloc, "p")?,
        text: Text::from_str(alloc, "t")?,
        left: Text::from_str(alloc, "a")?,
        made: Text::from_str(alloc, "c")?,
    })
}

/// The `where` of a text that is one rule with nothing else.
fn only_where(definitions: &[Definition]) -> Option<&NameExpr> {
    match definitions {
        [Definition::Rule(rule)] => match rule.items.as_slice() {
            [Item::Simple(Simple::Where { test, .. })] => Some(test),
            _ => None,
        },
        _ => None,
    }
}

/// Whether the expression is checked to be `a.n == n`, by numbers.
fn is_resolved(alloc: Global, expr: &NameExpr) -> Result<bool, AllocError> {
    let scope = make_sample(alloc)?;
    let read = SlotRead {
        node: 5,
        attribute: 7,
    };
    Ok(match check(alloc, expr, &scope) {
        Ok(
            Checked {
                kind: Kind::Bool,
                expr: Some(Expr::Binary(Sign::Equal, left, right)),
            },
        ) => match (left.get(), right.get()) {
            (Expr::Slot(slot), Expr::Param(number)) => *slot == read && *number == 0,
            _ => false,
        },
        _ => false,
    })
}

#[test]
fn names_become_numbers(rt: HostRuntime) -> Result<(), Fail> {
    let mut is_right = false;
    if let Ok(syntax) = parse(rt.alloc(), "rule r() { where a.n == n; }") {
        if let Some(expr) = only_where(syntax.definitions.as_slice()) {
            is_right = is_resolved(rt.alloc(), expr)?;
        }
    }
    assert!(rt; is_right);
    Ok(())
}

/// The kind that the expression has, and whether it nests too deep to be kept; or its first fault,
/// with the column.
fn outcome(alloc: Global, expr: &NameExpr) -> Result<String, AllocError> {
    let scope = make_sample(alloc)?;
    match check(alloc, expr, &scope) {
        Ok(checked) => match checked.expr {
            Some(_) => format!(in alloc; "{:?}", checked.kind),
            None => format!(in alloc; "{:?}, too deep", checked.kind),
        },
        Err(Failure::Fault(fault)) => format!(in alloc; "{:?} at {}", fault.kind, fault.at.column),
        Err(Failure::NoMemory) => String::from_str(alloc, "no memory"),
    }
}

/// What the text's expression is checked to be.
fn answer(alloc: Global, text: &str) -> Result<String, AllocError> {
    let rule = format!(in alloc; "rule r() {{where\n{text};}}")?;
    match parse(alloc, rule.as_str()) {
        Ok(syntax) => match only_where(syntax.definitions.as_slice()) {
            Some(expr) => outcome(alloc, expr),
            None => String::from_str(alloc, "no expression"),
        },
        Err(_) => String::from_str(alloc, "no syntax"),
    }
}

/// The first line of the table that is wrong: an expression, a bar, and what the expression is
/// checked to be.
fn first_wrong<'a>(alloc: Global, table: &'a str) -> Result<Option<&'a str>, AllocError> {
    for line in table.lines() {
        let is_right = match line.split_once(" | ") {
            Some((text, want)) => answer(alloc, text)?.as_str() == want,
            None => false,
        };
        if !is_right {
            return Ok(Some(line));
        }
    }
    Ok(None)
}

const KINDS: &str = "n + 1 > 0 | Bool
a.n * -2 | Int
t | Text
t == \"\" | Bool
a.p != p | Bool
not (p and a.p or true) | Bool";

#[test]
fn kinds_are_found(rt: HostRuntime) -> Result<(), Fail> {
    assert_eq!(rt; first_wrong(rt.alloc(), KINDS)?, None);
    Ok(())
}

const FAULTS: &str = "z + 1 | UnknownName at 1
1 + z | UnknownName at 5
(1 + (2 * z)) > 0 | UnknownName at 11
a + 1 | UnknownName at 1
z.n + 1 | UnknownNode at 1
1 + z.n | UnknownNode at 5
not (1 > z.n) | UnknownNode at 10
c.n + 1 | NotRead at 1
1 + c.n | NotRead at 5
not (1 > c.n) | NotRead at 10
a.z + 1 | UnknownAttribute at 3
1 + a.z | UnknownAttribute at 7
not (1 > a.z) | UnknownAttribute at 12
p + 1 | BadKind at 3
1 + p | BadKind at 3
1 + (2 * p) | BadKind at 8";

#[test]
fn each_fault_has_its_place(rt: HostRuntime) -> Result<(), Fail> {
    assert_eq!(rt; first_wrong(rt.alloc(), FAULTS)?, None);
    Ok(())
}

const UNLIKE: &str = "not 1 | BadKind at 1
not t | BadKind at 1
-p | BadKind at 1
-t | BadKind at 1
n == p | BadKind at 3
t != n | BadKind at 3
t < t | BadKind at 3
p >= p | BadKind at 3
n and p | BadKind at 3
p or t | BadKind at 3
t * t | BadKind at 3";

#[test]
fn signs_take_their_kinds_alone(rt: HostRuntime) -> Result<(), Fail> {
    assert_eq!(rt; first_wrong(rt.alloc(), UNLIKE)?, None);
    Ok(())
}

const TWO_FAULTS: &str = "z + y.n | UnknownName at 1
y.n + z | UnknownNode at 1
(p + 1) + z | BadKind at 4
z + (p + 1) | UnknownName at 1
p + z | UnknownName at 5
not (1 + c.n) | NotRead at 10
c.z == a.z | NotRead at 1
a.z == c.z | UnknownAttribute at 3";

#[test]
fn the_first_of_two_faults_is_reported(rt: HostRuntime) -> Result<(), Fail> {
    assert_eq!(rt; first_wrong(rt.alloc(), TWO_FAULTS)?, None);
    Ok(())
}

/// Appends the part `count` times.
fn repeat(text: &mut String, part: &str, count: u32) -> Result<(), AllocError> {
    for _ in 0..count {
        text.push_str(part)?;
    }
    Ok(())
}

/// Whether this is what the middle with `count` fronts before it and `count` ends after it gives.
fn has_outcome(
    alloc: Global,
    count: u32,
    front: &str,
    middle: &str,
    end: &str,
    want: &str,
) -> Result<bool, AllocError> {
    let mut text = String::new(alloc);
    repeat(&mut text, front, count)?;
    text.push_str(middle)?;
    repeat(&mut text, end, count)?;
    Ok(answer(alloc, text.as_str())?.as_str() == want)
}

#[test]
fn what_nests_33_deep_is_not_kept(rt: HostRuntime) -> Result<(), Fail> {
    let alloc = rt.alloc();
    assert!(rt; has_outcome(alloc, 32, "not ", "true", "", "Bool")?);
    assert!(rt; has_outcome(alloc, 33, "not ", "true", "", "Bool, too deep")?);
    assert!(rt; has_outcome(alloc, 32, "-", "n", "", "Int")?);
    assert!(rt; has_outcome(alloc, 33, "-", "n", "", "Int, too deep")?);
    assert!(rt; has_outcome(alloc, 32, "", "n", " + 1", "Int")?);
    assert!(rt; has_outcome(alloc, 33, "", "n", " + 1", "Int, too deep")?);
    assert!(rt; has_outcome(alloc, 32, "1 + (", "n", ")", "Int")?);
    assert!(rt; has_outcome(alloc, 33, "1 + (", "n", ")", "Int, too deep")?);
    Ok(())
}

#[test]
fn a_million_operators_are_checked(rt: HostRuntime) -> Result<(), Fail> {
    let alloc = rt.alloc();
    assert!(rt; has_outcome(alloc, 1_000_000, "not ", "true", "", "Bool, too deep")?);
    assert!(rt; has_outcome(alloc, 1_000_000, "-", "n", "", "Int, too deep")?);
    assert!(rt; has_outcome(alloc, 1_000_000, "", "1", " + 1", "Int, too deep")?);
    assert!(rt; has_outcome(alloc, 1_000_000, "1 + (", "1", ")", "Int, too deep")?);
    Ok(())
}

#[test]
fn a_fault_at_either_end_of_a_million_operators_is_reported(rt: HostRuntime) -> Result<(), Fail> {
    let alloc = rt.alloc();
    assert!(rt; has_outcome(alloc, 1_000_000, "", "z", " + 1", "UnknownName at 1")?);
    assert!(rt; has_outcome(alloc, 1_000_000, "1 + ", "z", "", "UnknownName at 4000001")?);
    assert!(rt;
        has_outcome(
            alloc,
            1_000_000,
            "1 + (",
            "z",
            ")",
            "UnknownName at 5000001"
        )?
    );
    assert!(rt; has_outcome(alloc, 1_000_000, "", "p", " + 1", "BadKind at 3")?);
    Ok(())
}
