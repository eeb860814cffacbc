//! What a bundle asks for.

use hs_expr::{Failure, List};
use hs_input::read_input;
use hs_types::Request;
use std::alloc::{AllocError, Global};

/// What the first request calls.
fn asked(alloc: Global, sessions: &[List<Request>]) -> Result<String, AllocError> {
    for session in sessions {
        for request in session.as_slice() {
            return String::from_str(alloc, request.call.as_str());
        }
    }
    String::from_str(alloc, "nothing")
}

/// What is asked for in the bundle, or the line that says why it is refused.
fn outcome_of(alloc: Global, text: &str) -> Result<String, AllocError> {
    match read_input(alloc, text.as_bytes()) {
        Ok(input) => asked(alloc, input.sessions.as_slice()),
        Err(Failure::Fault(refusal)) => Ok(refusal.line(alloc)?.into_string()),
        Err(Failure::NoMemory) => Err(AllocError),
    }
}

/// A bundle with one class, these rules, and a call of `r`.
fn called(alloc: Global, rules: &str) -> Result<String, AllocError> {
    format!(in alloc;
        r#"{{"meta":{{"classes":[{{"name":"A","attributes":[{{"name":"n","type":"EInt"}}],"references":[{{"name":"next","target":"A"}}]}}]}},"rules":"{rules}","sessions":[[{{"call":"r"}}]]}}"#
    )
}

#[test]
fn what_is_asked_for_is_told(rt: HostRuntime) -> Result<(), AllocError> {
    for (text, asked) in [
        (r#"{"meta":{"classes":[]}}"#, "nothing"),
        (
            r#"{"meta":{"classes":[]},"rules":"rule r() { }","sessions":[[{"call":"r"}]]}"#,
            "r",
        ),
        (
            r#"{"meta":{"classes":[]},"rules":"rule r() { } unit u() loop { r(); }","sessions":[[{"call":"r"}]]}"#,
            "henshin: not-built",
        ),
    ] {
        assert!(rt; outcome_of(rt.alloc(), text)?.as_str() == asked, "{text}");
    }
    Ok(())
}

#[test]
fn the_first_refusal_is_told(rt: HostRuntime) -> Result<(), AllocError> {
    for (text, line) in [
        (r#"{"meta":{"classes":[]}"#, "henshin: bad-json"),
        (
            r#"{"meta":{"classes":[]},"graph":1,"rules":"rule"}"#,
            "henshin: bad-graph /graph form",
        ),
        (
            r#"{"meta":{"classes":[]},"rules":"unit u() loop { r(); }\nrule r(","journal":1}"#,
            "henshin: bad-text 2:8 end",
        ),
        (
            r#"{"meta":{"classes":[]},"rules":"unit u() loop { s(); }\nrule r(in a: A) { }","journal":1}"#,
            "henshin: bad-rule 2:14 unknownclass",
        ),
        (
            r#"{"meta":{"classes":[]},"rules":"unit u() loop { s(); }\nrule r() { }","journal":1}"#,
            "henshin: bad-unit 1:17 unknownunit",
        ),
    ] {
        assert!(rt; outcome_of(rt.alloc(), text)?.as_str() == line, "{text}");
    }
    Ok(())
}

#[test]
fn one_rule_that_only_adds_can_be_called(rt: HostRuntime) -> Result<(), AllocError> {
    for (rules, answer) in [
        ("rule r() { }", "r"),
        (
            "rule r() { create edge a -> b: next; preserve node a: A; create node b: A; }",
            "r",
        ),
        (
            "rule r(in a: A) { preserve node a: A; }",
            "henshin: not-built",
        ),
        (
            "rule r(out a: A) { create node a: A; }",
            "henshin: not-built",
        ),
        ("rule r() { delete node a: A; }", "henshin: not-built"),
        (
            "rule r() { preserve node a: A; preserve node b: A; delete edge a -> b: next; }",
            "henshin: not-built",
        ),
        ("rule r() { where true; }", "henshin: not-built"),
        (
            "rule r() { create node a: A; set a.n = 1; }",
            "henshin: not-built",
        ),
        ("rule r() { forbid { } }", "henshin: not-built"),
        ("rule r() { require { } }", "henshin: not-built"),
        ("rule r() { multi { } }", "henshin: not-built"),
        ("rule r() { } rule s() { }", "henshin: not-built"),
        ("rule s() { }", "henshin: not-built"),
        ("", "henshin: not-built"),
    ] {
        let bundle = called(rt.alloc(), rules)?;
        assert!(rt;
            outcome_of(rt.alloc(), bundle.as_str())?.as_str() == answer,
            "{rules}"
        );
    }
    Ok(())
}
