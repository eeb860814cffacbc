//! Faults of rules.

use crate::faults::{first_wrong, is_reported};
use std::alloc::{AllocError, Global};
use std::test::Fail;

const RIGHT: &str = r#" || fine
rule r() { preserve node a: Thing; } || fine
rule r(in a: int) { preserve node a: Client; where a > 0; } || fine
rule r(in a: Account, out c: Client) { delete node a: Account; create node c: Client; } || fine
rule r() { preserve node a: Account; preserve node c: Client; preserve edge a -> c: about; } || fine
rule r() { delete node c: Client; preserve node a: Account; forbid { edge c -> a: accounts; } } || fine
rule r() { create node a: Account; set a.name = "x"; set a.open = 1 < 2; } || fine
rule r() { preserve node a: Account; multi { preserve node c: Client; set c.name = a.name; where a.open; } } || fine"#;

#[test]
fn right_rules_are_fine(rt: HostRuntime) -> Result<(), Fail> {
    assert_eq!(rt; first_wrong(rt.alloc(), RIGHT, "")?, None);
    Ok(())
}

const DECLARATIONS: &str = r#"rule r(in a: int, in ^a: int) { } || rule Twice
rule r(in a: ^Nothing) { } || rule UnknownClass
rule r(in a: ^Ghost) { preserve node a: Ghost; } || rule NoConcrete
rule r() { preserve node a: Client; create node ^a: Client; } || rule Twice
rule r() { preserve node a: Client; forbid { node ^a: Client; } } || rule Twice
rule r() { preserve node a: ^int; } || rule UnknownClass
rule r() { create node a: ^Thing; } || rule NoConcrete
rule r(in x: ^Nothing) { preserve node a: Client; preserve node a: Client; } || rule UnknownClass
rule r(out ^a: int) { } || rule ArgMismatch
rule r(in ^a: Client) { } || rule UnknownNode
rule r(in ^a: Client) { create node a: Client; } || rule UnknownNode
rule r(out ^a: Client) { delete node a: Client; } || rule UnknownNode
rule r(in ^a: Client) { multi { preserve node a: Client; } } || rule UnknownNode
rule r(in ^a: Thing) { preserve node a: Client; } || rule ArgMismatch
rule r(in a: Client) { preserve node b: ^Nothing; } || rule UnknownClass
rule r(in ^a: Client) { preserve edge x -> y: z; } || rule UnknownNode"#;

#[test]
fn parameters_and_nodes_are_checked(rt: HostRuntime) -> Result<(), Fail> {
    assert_eq!(rt; first_wrong(rt.alloc(), DECLARATIONS, "")?, None);
    Ok(())
}

const EDGES: &str =
    r#"rule r() { preserve node a: Client; preserve edge ^b -> a: accounts; } || rule UnknownNode
rule r() { preserve node c: Client; preserve edge c -> ^b: accounts; } || rule UnknownNode
rule r() { preserve node c: Client; preserve node a: Account; preserve edge c -> a: ^owner; } || rule UnknownReference
rule r() { preserve node c: Client; preserve node a: Account; preserve edge a -> c: ^balance; } || rule UnknownReference
rule r() { preserve node c: Client; preserve node d: Client; preserve edge c -> d: ^accounts; } || rule BadEnds
rule r() { preserve node c: Client; create node a: Account; preserve edge c -> a: ^accounts; } || rule BadEnds
rule r() { delete node c: Client; preserve node a: Account; create edge c -> a: ^accounts; } || rule BadEnds
rule r() { create node c: Client; preserve node a: Account; delete edge c -> a: ^accounts; } || rule BadEnds
rule r() { create node c: Client; preserve node a: Account; forbid { edge c -> a: ^accounts; } } || rule BadEnds
rule r() { preserve node a: Account; forbid { node c: Client; } require { edge ^c -> a: accounts; } } || rule UnknownNode
rule r() { preserve node a: Account; preserve edge ^c -> a: accounts; multi { preserve node c: Client; } } || rule UnknownNode"#;

#[test]
fn edges_are_checked(rt: HostRuntime) -> Result<(), Fail> {
    assert_eq!(rt; first_wrong(rt.alloc(), EDGES, "")?, None);
    Ok(())
}

const SETS: &str = r#"rule r() { set ^a.balance = 1; } || rule UnknownNode
rule r() { forbid { node a: Account; } set ^a.balance = 1; } || rule UnknownNode
rule r() { delete node a: Account; set ^a.balance = 1; } || rule WriteOnDeleted
rule r() { delete node a: Account; multi { set ^a.balance = 1; } } || rule WriteOnDeleted
rule r() { create node a: Account; multi { set ^a.balance = 1; } } || rule KernelSlotInCopy
rule r() { preserve node a: Account; set a.^owner = 1; } || rule UnknownAttribute
rule r() { preserve node a: Account; set a.balance = 1; set a.^balance = x; } || rule Twice
rule r() { preserve node a: Account; set a.balance = ^x; } || rule UnknownName
rule r() { preserve node a: Account; set a.^balance = true; } || rule BadKind"#;

#[test]
fn sets_are_checked(rt: HostRuntime) -> Result<(), Fail> {
    assert_eq!(rt; first_wrong(rt.alloc(), SETS, "")?, None);
    Ok(())
}

const CONDITIONS: &str = r#"rule r() { where ^x; } || rule UnknownName
rule r(in a: Client) { preserve node a: Client; where ^a; } || rule UnknownName
rule r() { where ^a.open; } || rule UnknownNode
rule r() { create node a: Account; where ^a.open; } || rule NotRead
rule r() { forbid { node a: Account; } where ^a.open; } || rule NotRead
rule r() { multi { preserve node a: Account; } multi { where ^a.open; } } || rule UnknownNode
rule r() { preserve node a: Account; where a.^owner; } || rule UnknownAttribute
rule r() { preserve node a: Account; where a.open ^+ 1 == 2; } || rule BadKind
rule r() { ^where 1; } || rule BadKind
rule r() { ^where 1; preserve edge x -> y: z; } || rule BadKind"#;

#[test]
fn conditions_are_checked(rt: HostRuntime) -> Result<(), Fail> {
    assert_eq!(rt; first_wrong(rt.alloc(), CONDITIONS, "")?, None);
    Ok(())
}

/// The text `front`, `count` times `middle`, and `back`.
fn repeated(
    alloc: Global,
    front: &str,
    middle: &str,
    count: u32,
    back: &str,
) -> Result<String, AllocError> {
    let mut text = String::from_str(alloc, front)?;
    for _ in 0..count {
        text.push_str(middle)?;
    }
    text.push_str(back)?;
    Ok(text)
}

/// A rule with n nodes, followed by these items.
fn with_nodes(alloc: Global, count: u32, back: &str) -> Result<String, AllocError> {
    let mut text = String::from_str(alloc, "rule r() {")?;
    for i in 0..count {
        text.push_str(format!(in alloc; " create node n{i}: Client;")?.as_str())?;
    }
    text.push_str(back)?;
    Ok(text)
}

/// So many rules, of which the last has the name of the first.
fn with_rules(alloc: Global, count: u32) -> Result<String, AllocError> {
    let mut text = String::new(alloc);
    for i in 0..count {
        text.push_str(format!(in alloc; "rule r{i}() {{ }}\n")?.as_str())?;
    }
    text.push_str("rule r0() { }")?;
    Ok(text)
}

#[test]
fn limits_are_kept(rt: HostRuntime) -> Result<(), Fail> {
    let alloc = rt.alloc();
    let limit = "1:6 rule Limit";
    let kernel = "rule r() { preserve node c: Client; preserve node a: Account;";
    let edge = " create edge c -> a: accounts;";
    let cases = [
        (with_nodes(alloc, 12, "}")?, "fine"),
        (with_nodes(alloc, 13, "}")?, limit),
        (
            with_nodes(alloc, 13, " where x; }")?,
            "1:333 rule UnknownName",
        ),
        (repeated(alloc, kernel, edge, 3, "}")?, "fine"),
        (repeated(alloc, kernel, edge, 4, "}")?, limit),
        (
            repeated(alloc, "rule r() {", " forbid { }", 8, "}")?,
            "fine",
        ),
        (
            repeated(alloc, "rule r() {", " forbid { }", 8, "require { } }")?,
            limit,
        ),
        (repeated(alloc, "rule r() {", " multi { }", 4, "}")?, "fine"),
        (repeated(alloc, "rule r() {", " multi { }", 5, "}")?, limit),
        (
            repeated(alloc, "rule r() { where", " not", 32, " true; }")?,
            "fine",
        ),
        (
            repeated(alloc, "rule r() { where", " not", 33, " true; }")?,
            limit,
        ),
    ];
    for (text, wanted) in &cases {
        assert!(rt;
            is_reported(alloc, text.as_str(), wanted)?,
            "{}",
            text.as_str()
        );
    }
    Ok(())
}

const SEVERAL: &str = r#"rule r() { } rule ^r() { } || rule Twice
rule r() { ^where 1; } rule r() { } || rule BadKind"#;

#[test]
fn rules_go_one_by_one(rt: HostRuntime) -> Result<(), Fail> {
    let alloc = rt.alloc();
    assert_eq!(rt; first_wrong(alloc, SEVERAL, "")?, None);
    assert!(rt; is_reported(alloc, with_rules(alloc, 63)?.as_str(), "64:6 rule Twice")?);
    assert!(rt; is_reported(alloc, with_rules(alloc, 64)?.as_str(), "65:6 rule Limit")?);
    Ok(())
}
