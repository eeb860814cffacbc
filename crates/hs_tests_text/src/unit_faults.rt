//! Faults of units.

use crate::faults::{first_wrong, is_reported};
use std::alloc::{AllocError, Global};
use std::test::Fail;

const RIGHT: &str = r#"unit u() sequential { } || fine
unit u(in n: int, out c: Client) iterated n { v(c > c, x = -1); } unit v(in x: int, out c: Client) sequential { } || fine
rule r(in a: Account) { preserve node a: Account; } unit u(in a: Account) loop { r(a = a); } || fine
unit u(out a: Account) priority { v(t = a); } unit v(in t: Thing) independent { } || fine
unit u(out t: Thing) sequential { v(a > t); v(a > t); v(); } unit v(out a: Account) sequential { } || fine
unit u(in b: bool) conditional { if v(b = b, s = ""); then w(); else w(); } unit v(in b: bool, in s: text) sequential { } rule w() { } || fine
unit u() sequential { v(); w(); } unit v() loop { w(); } unit w() sequential { } || fine"#;

#[test]
fn right_units_are_fine(rt: HostRuntime) -> Result<(), Fail> {
    assert_eq!(rt; first_wrong(rt.alloc(), RIGHT, "")?, None);
    Ok(())
}

const NAMES: &str = r#"unit ^u() sequential { } rule u() { } || unit Twice
unit u() sequential { } unit ^u(in a: Nothing) sequential { } || unit Twice
unit u(in a: int, in ^a: Nothing) sequential { } || unit Twice
unit u(in a: ^Nothing, out b: int) sequential { } || unit UnknownClass
unit u(out ^a: int, in b: Nothing) sequential { v(); } || unit ArgMismatch
unit u(out ^a: text) sequential { v(); } || unit ArgMismatch"#;

#[test]
fn names_and_parameters_are_checked(rt: HostRuntime) -> Result<(), Fail> {
    assert_eq!(rt; first_wrong(rt.alloc(), NAMES, "")?, None);
    Ok(())
}

/// What the calls of the table call.
const CALLEE: &str = " unit v(in n: int, in t: Client, out c: Client, out d: Thing) sequential { }";

const CALLS: &str = r#"unit u() sequential { ^x(); v(); } || unit UnknownUnit
unit u() sequential { ^v(); x(); } || unit ArgMismatch
unit u(in c: Client) loop { ^v(n = 1, t = c, n = 2); } || unit ArgMismatch
unit u(in c: Client) loop { ^v(n = 1, t = c, x = 2); } || unit ArgMismatch
unit u(in c: Client) loop { ^v(n = true, t = c); } || unit ArgMismatch
unit u() loop { ^v(n = 1, t = 1); } || unit ArgMismatch
unit u(in c: Thing) loop { ^v(n = 1, t = c); } || unit ArgMismatch
unit u(in c: Client) loop { ^v(n = c, t = c); } || unit ArgMismatch
unit u() loop { ^v(n = 1, t = c); } || unit ArgMismatch
unit u(in c: Client) loop { ^v(n = 1, t = c, c = c); } || unit ArgMismatch
unit u(in c: Client) loop { ^v(n = 1, t = c, c > c); } || unit ArgMismatch
unit u(out c: Client) loop { ^v(n = 1, t > c); } || unit ArgMismatch
unit u(out c: Client) loop { ^v(n = 1, t = c, c > c, c > c); } || unit ArgMismatch
unit u(out c: Client) loop { ^v(n = 1, t = c, d > c); } || unit ArgMismatch
unit u() conditional { if w(); then w(); else ^v(); } unit w() sequential { } || unit ArgMismatch"#;

#[test]
fn calls_are_checked(rt: HostRuntime) -> Result<(), Fail> {
    assert_eq!(rt; first_wrong(rt.alloc(), CALLS, CALLEE)?, None);
    Ok(())
}

const OTHERS: &str =
    r#"unit u() loop { v(); } unit v(out c: ^Nothing) sequential { } || unit UnknownClass
unit u(out c: Client) loop { ^v(d > c); } unit v(out d: Nothing) sequential { } || unit ArgMismatch
unit u() loop { ^v(); } unit v(in c: Nothing) sequential { } || unit ArgMismatch
unit u() loop { v(); } unit v(out c: Client, in ^c: int) sequential { } || unit Twice
unit u(in n: bool) iterated n { ^v(); } || unit UnknownUnit
rule r() { } unit u(in n: bool) iterated ^n { r(); } || unit ArgMismatch
rule r() { } unit u() iterated ^n { r(); } || unit ArgMismatch
unit ^u() loop { v(); } unit v() loop { u(); } || unit UnitCycle
unit w() loop { u(); } unit ^u() loop { v(); } unit v() loop { u(); } || unit UnitCycle
unit u() loop { u(); } unit v() loop { ^x(); } || unit UnknownUnit
unit u() loop { x(); } rule r() { ^where 1; } || rule BadKind"#;

#[test]
fn other_faults_of_units_are_reported(rt: HostRuntime) -> Result<(), Fail> {
    assert_eq!(rt; first_wrong(rt.alloc(), OTHERS, "")?, None);
    Ok(())
}

/// The text `front`, the middle with each number below the count in it, and `back`.
fn numbered(
    alloc: Global,
    front: &str,
    middle: (&str, &str),
    count: u32,
    back: &str,
) -> Result<String, AllocError> {
    let mut text = String::from_str(alloc, front)?;
    for i in 0..count {
        text.push_str(format!(in alloc; "{}{i}{}", middle.0, middle.1)?.as_str())?;
    }
    text.push_str(back)?;
    Ok(text)
}

#[test]
fn limits_of_units_are_kept(rt: HostRuntime) -> Result<(), Fail> {
    let alloc = rt.alloc();
    let param = ("in a", ": int, ");
    let params = "in z: int) sequential { }";
    let call = (" r(); // ", "\n");
    let calls = "rule r() { } unit u() sequential {";
    let unit = ("unit u", "() sequential { }\n");
    let cases = [
        (numbered(alloc, "unit u(", param, 15, params)?, "fine"),
        (
            numbered(alloc, "unit u(", param, 16, params)?,
            "1:6 unit Limit",
        ),
        (
            numbered(alloc, "unit u(", param, 16, "in z: int) loop { x(); }")?,
            "1:224 unit UnknownUnit",
        ),
        (numbered(alloc, calls, call, 16, "}")?, "fine"),
        (numbered(alloc, calls, call, 17, "}")?, "1:19 unit Limit"),
        (
            numbered(alloc, "", unit, 63, "unit u0() sequential { }")?,
            "64:6 unit Twice",
        ),
        (
            numbered(alloc, "", unit, 64, "unit u0() sequential { }")?,
            "65:6 unit Limit",
        ),
    ];
    for (text, wanted) in &cases {
        assert!(rt;
            is_reported(alloc, text.as_str(), wanted)?,
            "{}",
            text.as_str()
        );
    }
    Ok(())
}

/// A unit that calls another one `count` times, which has one parameter more than that.
fn many_calls(alloc: Global, count: u32) -> Result<String, AllocError> {
    let call = ("v(); // ", "\n");
    let calls = numbered(alloc, "unit u() sequential {", call, count, "}\nunit v(")?;
    let param = ("out c", ": Client, ");
    numbered(
        alloc,
        calls.as_str(),
        param,
        count,
        "out d: Client) sequential { }",
    )
}

#[test]
fn many_calls_of_many_parameters_are_checked(rt: HostRuntime) -> Result<(), Fail> {
    let text = many_calls(rt.alloc(), 20_000)?;
    assert!(rt; is_reported(rt.alloc(), text.as_str(), "1:6 unit Limit")?,);
    Ok(())
}
