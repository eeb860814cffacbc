//! Expressions that are evaluated.

ghost use Rattle.std.specs.Prelude.{Some, None, nat_eq, if◌then◌else◌};

use hs_eval::{Env, ValueRef, eval, nests_within};
use hs_expr::{Expr, Sign, SlotRead, Text, Value};
use sqlite_items::Boxed;
use std::alloc::{AllocError, Global};
use std::test::Fail;

/// Every slot of node 1 has one value, and parameter 2 has another.
#[derive(Drop)]
struct Given {
    slot: Value,
    param: Value,
}

impl Env for Given {
    ghost reads = { λ given. record {
      slot = λ node attribute. if nat_eq node 1 then Some given.slot else None;
      param = λ number. if nat_eq number 2 then Some given.param else None;
    } };

    fn slot(&self, node: u16, attribute: u16) -> Option<&Value> {
        if node == 1 { Some(&self.slot) } else { None }
    }

    fn param(&self, number: u16) -> Option<&Value> {
        if number == 2 { Some(&self.param) } else { None }
    }
}

fn text(alloc: Global, chars: &str) -> Result<Value, AllocError> {
    Ok(Value::Text(Text::from_str(alloc, chars)?))
}

fn binary(alloc: Global, sign: Sign, left: Expr, right: Expr) -> Result<Expr, AllocError> {
    Ok(Expr::Binary(sign, Boxed::new(alloc, left)?, Boxed::new(alloc, right)?))
}

fn slot() -> Expr {
    Expr::Slot(SlotRead {
        node: 1,
        attribute: 0,
    })
}

fn int(number: i64) -> Expr {
    Expr::Literal(Value::Int(number))
}

/// `slot + 1 > 0`.
fn is_next_positive(alloc: Global) -> Result<Expr, AllocError> {
    let next = binary(alloc, Sign::Plus, slot(), int(1))?;
    binary(alloc, Sign::Greater, next, int(0))
}

/// Whether the expression is worth this where it reads what is given, or nothing.
fn is_worth(expr: &Expr, given: &Given, want: Option<ValueRef<'_>>) -> bool {
    nests_within(expr, 32) && eval(expr, given) == want
}

fn is_given(slot: i64) -> Given {
    Given {
        slot: Value::Int(slot),
        param: Value::Bool(true),
    }
}

/// What the sign makes of the two values.
fn is_joined(
    alloc: Global,
    sign: Sign,
    left: Value,
    right: Value,
    want: Option<ValueRef<'_>>,
) -> Result<bool, AllocError> {
    let expr = binary(alloc, sign, Expr::Literal(left), Expr::Literal(right))?;
    Ok(is_worth(&expr, &is_given(0), want))
}

#[test]
fn both_sides_are_evaluated(rt: HostRuntime) -> Result<(), Fail> {
    let alloc = rt.alloc();
    let yes = Expr::Literal(Value::Bool(true));
    let either = binary(alloc, Sign::Or, yes, is_next_positive(alloc)?)?;
    assert!(rt; is_worth(&either, &is_given(i64::MAX), None));
    assert!(rt; is_worth(&either, &is_given(-5), Some(ValueRef::Bool(true))));
    let no = Expr::Literal(Value::Bool(false));
    let both = binary(alloc, Sign::And, no, is_next_positive(alloc)?)?;
    assert!(rt; is_worth(&both, &is_given(i64::MAX), None));
    assert!(rt; is_worth(&both, &is_given(5), Some(ValueRef::Bool(false))));
    Ok(())
}

#[test]
fn a_negation_of_what_leaves_64_bits_has_no_value(rt: HostRuntime) -> Result<(), Fail> {
    let alloc = rt.alloc();
    let negated = Expr::Not(Boxed::new(alloc, is_next_positive(alloc)?)?);
    assert!(rt; is_worth(&negated, &is_given(i64::MAX), None));
    assert!(rt; is_worth(&negated, &is_given(-1), Some(ValueRef::Bool(true))));
    assert!(rt; is_worth(&negated, &is_given(0), Some(ValueRef::Bool(false))));
    Ok(())
}

#[test]
fn arithmetic_ends_at_64_bits(rt: HostRuntime) -> Result<(), Fail> {
    let cases = [
        (Sign::Plus, i64::MAX, 1, None),
        (Sign::Plus, i64::MAX - 1, 1, Some(i64::MAX)),
        (Sign::Plus, i64::MIN, -1, None),
        (Sign::Plus, i64::MIN + 1, -1, Some(i64::MIN)),
        (Sign::Minus, i64::MIN, 1, None),
        (Sign::Minus, i64::MAX, -1, None),
        (Sign::Minus, -1, i64::MAX, Some(i64::MIN)),
        (Sign::Times, i64::MIN, -1, None),
        (Sign::Times, 3_037_000_500, 3_037_000_500, None),
        (
            Sign::Times,
            3_037_000_499,
            3_037_000_499,
            Some(9_223_372_030_926_249_001),
        ),
    ];
    for (sign, left, right, want) in cases {
        let want = want.map(|number| ValueRef::Int(number));
        let found = is_joined(rt.alloc(), sign, Value::Int(left), Value::Int(right), want)?;
        assert!(rt; found, "{left} with {right}");
    }
    Ok(())
}

#[test]
fn the_least_number_has_no_opposite(rt: HostRuntime) -> Result<(), Fail> {
    let opposite = Expr::Minus(Boxed::new(rt.alloc(), slot())?);
    assert!(rt; is_worth(&opposite, &is_given(i64::MIN), None));
    let least = Some(ValueRef::Int(i64::MIN + 1));
    assert!(rt; is_worth(&opposite, &is_given(i64::MAX), least));
    Ok(())
}

#[test]
fn numbers_are_compared(rt: HostRuntime) -> Result<(), Fail> {
    let cases = [
        (Sign::Equal, [false, true, false]),
        (Sign::NotEqual, [true, false, true]),
        (Sign::Less, [true, false, false]),
        (Sign::AtMost, [true, true, false]),
        (Sign::Greater, [false, false, true]),
        (Sign::AtLeast, [false, true, true]),
    ];
    for (sign, wants) in cases {
        for (left, want) in [-1, 0, 1].into_iter().zip(wants) {
            let want = Some(ValueRef::Bool(want));
            let found = is_joined(rt.alloc(), sign, Value::Int(left), Value::Int(0), want)?;
            assert!(rt; found, "{left} with 0");
        }
    }
    Ok(())
}

#[test]
fn truths_are_joined(rt: HostRuntime) -> Result<(), Fail> {
    let cases = [
        (Sign::And, [false, false, false, true]),
        (Sign::Or, [false, true, true, true]),
        (Sign::Equal, [true, false, false, true]),
        (Sign::NotEqual, [false, true, true, false]),
    ];
    for (sign, wants) in cases {
        let sides = [(false, false), (false, true), (true, false), (true, true)];
        for ((left, right), want) in sides.into_iter().zip(wants) {
            let want = Some(ValueRef::Bool(want));
            let found = is_joined(
                rt.alloc(),
                sign,
                Value::Bool(left),
                Value::Bool(right),
                want,
            )?;
            assert!(rt; found, "{left} with {right}");
        }
    }
    Ok(())
}

#[test]
fn texts_are_compared(rt: HostRuntime) -> Result<(), Fail> {
    let alloc = rt.alloc();
    for (left, right, same) in [
        ("", "", true),
        ("a", "", false),
        ("", "a", false),
        ("a", "b", false),
        ("ab", "ab", true),
    ] {
        let equal = Some(ValueRef::Bool(same));
        let found = is_joined(
            alloc,
            Sign::Equal,
            text(alloc, left)?,
            text(alloc, right)?,
            equal,
        )?;
        assert!(rt; found, "'{left}' == '{right}'");
        let unlike = Some(ValueRef::Bool(!same));
        let found = is_joined(
            alloc,
            Sign::NotEqual,
            text(alloc, left)?,
            text(alloc, right)?,
            unlike,
        )?;
        assert!(rt; found, "'{left}' != '{right}'");
    }
    Ok(())
}

#[test]
fn what_is_read_is_lent(rt: HostRuntime) -> Result<(), Fail> {
    let alloc = rt.alloc();
    let given = Given {
        slot: text(alloc, "blue")?,
        param: text(alloc, "red")?,
    };
    assert!(rt; is_worth(&slot(), &given, Some(ValueRef::Text("blue"))));
    assert!(rt; is_worth(&Expr::Param(2), &given, Some(ValueRef::Text("red"))));
    assert!(rt; is_worth(&Expr::Param(1), &given, None));
    let unlike = binary(alloc, Sign::NotEqual, slot(), Expr::Param(2))?;
    assert!(rt; is_worth(&unlike, &given, Some(ValueRef::Bool(true))));
    Ok(())
}

#[test]
fn depth_is_tested_to_its_bound(rt: HostRuntime) -> Result<(), Fail> {
    let mut chain = slot();
    for depth in 0..40 {
        assert!(rt; nests_within(&chain, 32) == (depth <= 32), "{depth}");
        chain = binary(rt.alloc(), Sign::Plus, chain, int(1))?;
    }
    Ok(())
}
