//! Syntax that is printed.

use hs_text::{parse, print};
use std::alloc::{AllocError, Global};
use std::test::Fail;

/// The canonical text of a text, or what it isn't.
fn canonical(alloc: Global, text: &str) -> Result<String, AllocError> {
    match parse(alloc, text) {
        Ok(syntax) => Ok(print(alloc, &syntax)?.into_string()),
        Err(_) => String::from_str(alloc, "no syntax"),
    }
}

/// A canonical text is its own canonical text.
fn stays(alloc: Global, text: &str) -> Result<bool, AllocError> {
    Ok(canonical(alloc, text)?.as_str() == text)
}

/// Whether the text has this canonical text, and that one stays.
fn becomes(alloc: Global, text: &str, wanted: &str) -> Result<bool, AllocError> {
    Ok(canonical(alloc, text)?.as_str() == wanted && stays(alloc, wanted)?)
}

#[test]
fn definitions_are_written_line_by_line(rt: HostRuntime) -> Result<(), Fail> {
    let text = "rule NAME(in a: Account, out b: Account) {
  preserve node a: Account;
  delete edge a -> b: owner;
  set a.balance = a.balance + 1;
  where (a.balance > 0) and (not done);
  forbid {
    edge a -> b: owner;
  }
}

unit u(in a: Account, out n: Account) sequential {
  r(a = a, m > n);
}
";
    assert!(rt; stays(rt.alloc(), text)?);
    Ok(())
}

#[test]
fn each_construct_has_its_text(rt: HostRuntime) -> Result<(), Fail> {
    let cases = [
        ("// nothing", ""),
        (
            "rule r(){require{}multi{create node x:int;set x.in=1;where true;}forbid{node y:A;}}",
            "rule r() {\n  require {\n  }\n  multi {\n    create node x: int;\n    set x.in = 1;\n    where true;\n  }\n  forbid {\n    node y: A;\n  }\n}\n",
        ),
        (
            "unit a()loop{r();}unit b()iterated 007{r();}unit c(in k:int)iterated k{r();}",
            "unit a() loop {\n  r();\n}\n\nunit b() iterated 7 {\n  r();\n}\n\nunit c(in k: int) iterated k {\n  r();\n}\n",
        ),
        (
            "unit d()conditional{if r();then s();}unit e()conditional{if r();then s();else t();}",
            "unit d() conditional {\n  if r();\n  then s();\n}\n\nunit e() conditional {\n  if r();\n  then s();\n  else t();\n}\n",
        ),
        (
            "unit f()independent{}unit g()priority{r(a=-0,b=- 007,c=1,d=\"x\",e=false,f=true,g=h);}",
            "unit f() independent {\n}\n\nunit g() priority {\n  r(a = -0, b = -7, c = 1, d = \"x\", e = false, f = true, g = h);\n}\n",
        ),
    ];
    for (text, wanted) in cases {
        assert!(rt; becomes(rt.alloc(), text, wanted)?, "{text}");
    }
    Ok(())
}

fn with_test(alloc: Global, test: &str) -> Result<String, AllocError> {
    format!(in alloc; "rule r() {{\n  where {test};\n}}\n")
}

#[test]
fn operands_of_operators_stand_in_parentheses(rt: HostRuntime) -> Result<(), Fail> {
    let cases = [
        ("a-b-c == - -(a+b)", "((a - b) - c) == (-(-(a + b)))"),
        ("-(-(a+b))*2 < 1", "((-(-(a + b))) * 2) < 1"),
        ("not not p and q or r", "((not (not p)) and q) or r"),
        ("a-(b-c) != x.y and p", "((a - (b - c)) != x.y) and p"),
        ("1>=2 or 3<=4 or 5>6", "((1 >= 2) or (3 <= 4)) or (5 > 6)"),
        ("((true))", "true"),
        ("-007==\"\\\"é\\\\\\n\\t\"", "(-7) == \"\\\"é\\\\\\n\\t\""),
    ];
    for (text, wanted) in cases {
        let from = with_test(rt.alloc(), text)?;
        let to = with_test(rt.alloc(), wanted)?;
        assert!(rt; becomes(rt.alloc(), from.as_str(), to.as_str())?, "{text}");
    }
    Ok(())
}

#[test]
fn worked_rules_are_read_back(rt: HostRuntime) -> Result<(), Fail> {
    let cases = [
        (
            "rule transfer(in from: Account, in to: Account, in amount: int) {
  preserve node from: Account;
  preserve node to: Account;
  where (amount > 0) and (from.balance >= amount);
  set from.balance = from.balance - amount;
  set to.balance = to.balance + amount;
}
rule lone(out c: Client) { create node c: Client; }",
            "rule transfer(in from: Account, in to: Account, in amount: int) {
  preserve node from: Account;
  preserve node to: Account;
  where (amount > 0) and (from.balance >= amount);
  set from.balance = from.balance - amount;
  set to.balance = to.balance + amount;
}

rule lone(out c: Client) {
  create node c: Client;
}
",
        ),
        (
            "rule dropTwice() {
  preserve node y: Client; delete node x: Account;
  delete edge y -> x: accounts; delete edge y -> x: accounts;
}
rule assign(in a: Account, in c: Client) {
  preserve node a: Account; preserve node c: Client;
  create edge a -> c: owner;
  forbid { edge a -> c: owner; }
}",
            "rule dropTwice() {
  preserve node y: Client;
  delete node x: Account;
  delete edge y -> x: accounts;
  delete edge y -> x: accounts;
}

rule assign(in a: Account, in c: Client) {
  preserve node a: Account;
  preserve node c: Client;
  create edge a -> c: owner;
  forbid {
    edge a -> c: owner;
  }
}
",
        ),
        (
            "rule purge(in x: Account) {
  delete node x: Account;
  multi { preserve node y: Client; delete edge y -> x: accounts; }
}
unit pay(in c: Client, in from: Account, in to: Account, in amount: int,
         out n: Account) sequential {
  openAccount(c = c, a > n);
  transfer(from = from, to = to, amount = amount);
}",
            "rule purge(in x: Account) {
  delete node x: Account;
  multi {
    preserve node y: Client;
    delete edge y -> x: accounts;
  }
}

unit pay(in c: Client, in from: Account, in to: Account, in amount: int, out n: Account) sequential {
  openAccount(c = c, a > n);
  transfer(from = from, to = to, amount = amount);
}
",
        ),
    ];
    for (text, wanted) in cases {
        assert!(rt; becomes(rt.alloc(), text, wanted)?, "{text}");
    }
    Ok(())
}

#[test]
fn further_rules_and_units_are_read_back(rt: HostRuntime) -> Result<(), Fail> {
    let cases = [
        (
            "rule openAccount(in c: Client, out a: Account) {
  preserve node c: Client; create node a: Account;
  create edge c -> a: accounts;
}
rule dropClient(in c: Client) { delete node c: Client; }
rule dropAccount(in a: Account) { delete node a: Account; }
rule unlink(in c: Client, in a: Account) {
  preserve node c: Client; preserve node a: Account;
  delete edge c -> a: accounts;
}
rule two() { preserve node x: Account; preserve node y: Account; }",
            "rule openAccount(in c: Client, out a: Account) {
  preserve node c: Client;
  create node a: Account;
  create edge c -> a: accounts;
}

rule dropClient(in c: Client) {
  delete node c: Client;
}

rule dropAccount(in a: Account) {
  delete node a: Account;
}

rule unlink(in c: Client, in a: Account) {
  preserve node c: Client;
  preserve node a: Account;
  delete edge c -> a: accounts;
}

rule two() {
  preserve node x: Account;
  preserve node y: Account;
}
",
        ),
        (
            "rule add(in a: Account) {
  preserve node a: Account; set a.balance = a.balance + 1;
}
rule touch() {
  preserve node q: Client; preserve node p: Account;
  preserve edge q -> p: accounts; preserve edge q -> p: accounts;
}
rule unassign(in a: Account, in c: Client) {
  preserve node a: Account; preserve node c: Client;
  delete edge a -> c: owner;
}
rule openOwned(in c: Client, out a: Account) {
  preserve node c: Client; create node a: Account;
  create edge a -> c: owner;
}",
            "rule add(in a: Account) {
  preserve node a: Account;
  set a.balance = a.balance + 1;
}

rule touch() {
  preserve node q: Client;
  preserve node p: Account;
  preserve edge q -> p: accounts;
  preserve edge q -> p: accounts;
}

rule unassign(in a: Account, in c: Client) {
  preserve node a: Account;
  preserve node c: Client;
  delete edge a -> c: owner;
}

rule openOwned(in c: Client, out a: Account) {
  preserve node c: Client;
  create node a: Account;
  create edge a -> c: owner;
}
",
        ),
        (
            "rule reset(in a: Account) {
  preserve node a: Account; set a.balance = 0;
  forbid { node d: Client; edge a -> d: owner; }
}
rule wide() {
  preserve node n0: Client; preserve node n1: Client;
  preserve node n6: Client; delete edge n0 -> n1: knows;
}
unit nothing() sequential { }
unit spin() loop { nothing(); }
unit never(in a: Account) iterated 0 { add(a = a); }
unit both(in a: Account) conditional { if add(a = a); then add(a = a); }",
            "rule reset(in a: Account) {
  preserve node a: Account;
  set a.balance = 0;
  forbid {
    node d: Client;
    edge a -> d: owner;
  }
}

rule wide() {
  preserve node n0: Client;
  preserve node n1: Client;
  preserve node n6: Client;
  delete edge n0 -> n1: knows;
}

unit nothing() sequential {
}

unit spin() loop {
  nothing();
}

unit never(in a: Account) iterated 0 {
  add(a = a);
}

unit both(in a: Account) conditional {
  if add(a = a);
  then add(a = a);
}
",
        ),
    ];
    for (text, wanted) in cases {
        assert!(rt; becomes(rt.alloc(), text, wanted)?, "{text}");
    }
    Ok(())
}

/// The length of the canonical text of a condition with a million operators.
fn printed_len(alloc: Global, operator: &str, end: &str) -> Result<usize, AllocError> {
    let mut text = String::from_str(alloc, "rule r() { where ")?;
    for _ in 0..1_000_000 {
        text.push_str(operator)?;
    }
    text.push_str("a")?;
    for _ in 0..1_000_000 {
        text.push_str(end)?;
    }
    text.push_str("; }")?;
    Ok(canonical(alloc, text.as_str())?.len())
}

#[test]
fn a_million_operators_are_printed(rt: HostRuntime) -> Result<(), Fail> {
    // The innermost operand has no parentheses: one pair is missing.
    assert_eq!(rt; printed_len(rt.alloc(), "not ", "")?, 6_000_022);
    assert_eq!(rt; printed_len(rt.alloc(), "-", "")?, 3_000_022);
    assert_eq!(rt; printed_len(rt.alloc(), "a-(", ")")?, 6_000_022);
    assert_eq!(rt; printed_len(rt.alloc(), "", "-a")?, 6_000_022);
    Ok(())
}
