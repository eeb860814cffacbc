//! What rules and units mean.

use hs_check::check;
use hs_expr::{Expr, List, Text, Value};
use hs_tests_model::model_of;
use hs_text::{parse, print};
use hs_types::{
    Atom, Bind, Body, Call, Count, Multi, Param, Part, PatternEdge, PatternNode, Rule, RuleSet,
    SetItem, Shape, Unit,
};
use std::alloc::{AllocError, Global};
use std::sync::Arc;
use std::test::Fail;

/// Client and Account, numbers 1 and 2, both below the abstract class Thing. A thing has a name
/// (feature 0), a client accounts and clients that it knows (1 and 2), and an account a balance and
/// an owner (3 and 4).
const MODEL: &str =
    r#"{"classes":[{"name":"Thing","abstract":true,"attributes":[{"name":"name","type":"EString"}]},{"name":"Client","supers":["Thing"],"references":[{"name":"accounts","target":"Account","upper":-1},{"name":"knows","target":"Client","upper":-1}]},{"name":"Account","supers":["Thing"],"attributes":[{"name":"balance","type":"EInt"}],"references":[{"name":"owner","target":"Client","upper":-1}]}]}"#;

fn nodes_text(alloc: Global, nodes: &[PatternNode]) -> Result<String, AllocError> {
    let mut text = String::new(alloc);
    for node in nodes {
        let one = format!(in alloc; " {}:{}:{:?}", node.name.as_str(), node.class, node.mark)?;
        text.push_str(one.as_str())?;
    }
    Ok(text)
}

fn edges_text(alloc: Global, edges: &[PatternEdge]) -> Result<String, AllocError> {
    let mut text = String::new(alloc);
    for edge in edges {
        let one = format!(in alloc;
            " {}-{}>{}:{:?}",
            edge.source, edge.reference, edge.target, edge.mark
        )?;
        text.push_str(one.as_str())?;
    }
    Ok(text)
}

/// The nodes, edges and slots of a kernel or a multi-rule.
fn shape_text(alloc: Global, shape: &Shape) -> Result<String, AllocError> {
    let nodes = nodes_text(alloc, shape.nodes.as_slice())?;
    let edges = edges_text(alloc, shape.edges.as_slice())?;
    let mut text = format!(in alloc; "{}{}", nodes.as_str(), edges.as_str())?;
    for slot in shape.slots.iter() {
        let one = format!(in alloc; " {}.{:?}:{}", slot.node, slot.kind, slot.written)?;
        text.push_str(one.as_str())?;
    }
    Ok(text)
}

fn parts_text(alloc: Global, word: &str, parts: &[Part]) -> Result<String, AllocError> {
    let mut text = String::new(alloc);
    for part in parts {
        let nodes = nodes_text(alloc, part.nodes.as_slice())?;
        let edges = edges_text(alloc, part.edges.as_slice())?;
        let one = format!(in alloc; " {word}({}{} )", nodes.as_str(), edges.as_str())?;
        text.push_str(one.as_str())?;
    }
    Ok(text)
}

/// An expression in short: a slot as its numbers, a parameter as `p` and its number.
fn expr_text(alloc: Global, expr: &Expr) -> Result<String, AllocError> {
    match expr {
        Expr::Literal(value) => format!(in alloc; "{value:?}"),
        Expr::Slot(read) => format!(in alloc; "{}.{}", read.node, read.attribute),
        Expr::Param(number) => format!(in alloc; "p{number}"),
        Expr::Not(operand) => {
            let operand = expr_text(alloc, operand.get())?;
            format!(in alloc; "(Not {})", operand.as_str())
        }
        Expr::Minus(operand) => {
            let operand = expr_text(alloc, operand.get())?;
            format!(in alloc; "(Minus {})", operand.as_str())
        }
        Expr::Binary(sign, left, right) => {
            let left = expr_text(alloc, left.get())?;
            let right = expr_text(alloc, right.get())?;
            format!(in alloc; "({} {sign:?} {})", left.as_str(), right.as_str())
        }
    }
}

fn sets_text(alloc: Global, wheres: &[Expr], sets: &[SetItem]) -> Result<String, AllocError> {
    let mut text = String::new(alloc);
    for test in wheres {
        let test = expr_text(alloc, test)?;
        let one = format!(in alloc; " where {}", test.as_str())?;
        text.push_str(one.as_str())?;
    }
    for item in sets {
        let value = expr_text(alloc, &item.value)?;
        let one = format!(in alloc; " set {}.{}={}", item.node, item.attribute, value.as_str())?;
        text.push_str(one.as_str())?;
    }
    Ok(text)
}

fn multis_text(alloc: Global, multis: &[Multi]) -> Result<String, AllocError> {
    let mut text = String::new(alloc);
    for multi in multis {
        let shape = shape_text(alloc, &multi.shape)?;
        let sets = sets_text(alloc, multi.wheres.as_slice(), multi.sets.as_slice())?;
        let one = format!(in alloc; " multi({}{} )", shape.as_str(), sets.as_str())?;
        text.push_str(one.as_str())?;
    }
    Ok(text)
}

fn params_text(alloc: Global, params: &[Param]) -> Result<String, AllocError> {
    let mut text = String::new(alloc);
    for param in params {
        let one = format!(in alloc;
            " {:?} {}:{:?}",
            param.direction,
            param.name.as_str(),
            param.kind
        )?;
        text.push_str(one.as_str())?;
    }
    Ok(text)
}

/// A rule in short: its parameters, its kernel, its blocks, its conditions and its sets.
fn rule_text(alloc: Global, rule: &Rule) -> Result<String, AllocError> {
    let params = params_text(alloc, rule.params.as_slice())?;
    let shape = shape_text(alloc, &rule.shape)?;
    let forbids = parts_text(alloc, "forbid", rule.forbids.as_slice())?;
    let needs = parts_text(alloc, "require", rule.needs.as_slice())?;
    let multis = multis_text(alloc, rule.multis.as_slice())?;
    let sets = sets_text(alloc, rule.wheres.as_slice(), rule.sets.as_slice())?;
    format!(in alloc;
        "{}({} ){}{}{}{}{}",
        rule.name.as_str(),
        params.as_str(),
        shape.as_str(),
        forbids.as_str(),
        needs.as_str(),
        multis.as_str(),
        sets.as_str()
    )
}

fn atom_text(alloc: Global, atom: &Atom) -> Result<String, AllocError> {
    match atom {
        Atom::Value(Value::Int(value)) => format!(in alloc; "{value}"),
        Atom::Value(Value::Bool(value)) => format!(in alloc; "{value}"),
        Atom::Value(Value::Text(value)) => format!(in alloc; "{:?}", value.as_str()),
        Atom::Name(name) => String::from_str(alloc, name.as_str()),
    }
}

fn bind_text(alloc: Global, bind: &Bind) -> Result<String, AllocError> {
    match bind {
        Bind::Give { parameter, atom } => {
            let atom = atom_text(alloc, atom)?;
            format!(in alloc; " {}={}", parameter.as_str(), atom.as_str())
        }
        Bind::Take {
            parameter,
            variable,
        } => format!(in alloc; " {}>{}", parameter.as_str(), variable.as_str()),
    }
}

fn call_text(alloc: Global, call: &Call) -> Result<String, AllocError> {
    let mut text = format!(in alloc; " {:?}", call.callee)?;
    for bind in call.binds.iter() {
        text.push_str(bind_text(alloc, bind)?.as_str())?;
    }
    Ok(text)
}

fn calls_text(alloc: Global, word: &str, calls: &[Call]) -> Result<String, AllocError> {
    let mut text = String::from_str(alloc, word)?;
    for call in calls {
        text.push_str(call_text(alloc, call)?.as_str())?;
    }
    Ok(text)
}

fn body_text(alloc: Global, body: &Body) -> Result<String, AllocError> {
    match body {
        Body::Sequential(calls) => calls_text(alloc, "sequential", calls.as_slice()),
        Body::Independent(calls) => calls_text(alloc, "independent", calls.as_slice()),
        Body::Priority(calls) => calls_text(alloc, "priority", calls.as_slice()),
        Body::Conditional {
            test,
            then,
            otherwise,
        } => choice_text(alloc, test, then, otherwise),
        Body::Loop(call) => {
            let call = call_text(alloc, call)?;
            format!(in alloc; "loop{}", call.as_str())
        }
        Body::Iterated { count, call } => {
            let call = call_text(alloc, call)?;
            match count {
                Count::Literal(value) => format!(in alloc; "iterated {value}{}", call.as_str()),
                Count::Param(name) => {
                    format!(in alloc; "iterated {}{}", name.as_str(), call.as_str())
                }
            }
        }
    }
}

fn choice_text(
    alloc: Global,
    test: &Call,
    then: &Call,
    otherwise: &Option<Call>,
) -> Result<String, AllocError> {
    let test = call_text(alloc, test)?;
    let then = call_text(alloc, then)?;
    let mut text = format!(in alloc; "if{} then{}", test.as_str(), then.as_str())?;
    if let Some(call) = otherwise {
        text.push_str(" else")?;
        text.push_str(call_text(alloc, call)?.as_str())?;
    }
    Ok(text)
}

fn unit_text(alloc: Global, unit: &Unit) -> Result<String, AllocError> {
    let params = params_text(alloc, unit.params.as_slice())?;
    let body = body_text(alloc, &unit.body)?;
    format!(in alloc;
        "{}({} ) {}",
        unit.name.as_str(),
        params.as_str(),
        body.as_str()
    )
}

fn read(alloc: Global, text: &str) -> Result<Option<RuleSet>, AllocError> {
    let Some(meta) = model_of(alloc, MODEL) else {
        return Ok(None);
    };
    let Ok(syntax) = parse(alloc, text) else {
        return Ok(None);
    };
    let meta = Arc::new(alloc, meta)?;
    Ok(check(alloc, &meta, &syntax).ok())
}

/// What the last unit of the text means, in short; where there is none, what the last rule means.
fn last_of(alloc: Global, text: &str) -> Result<String, AllocError> {
    let Some(set) = read(alloc, text)? else {
        return String::from_str(alloc, "nothing");
    };
    if let Some(unit) = set.units.as_slice().last() {
        return unit_text(alloc, unit);
    }
    match set.rules.as_slice().last() {
        Some(rule) => rule_text(alloc, rule),
        None => String::from_str(alloc, "nothing"),
    }
}

/// The first line of the table whose text doesn't denote what follows its bars.
fn first_wrong(alloc: Global, table: &str) -> Result<Option<String>, AllocError> {
    for line in table.lines() {
        let Some((text, wanted)) = line.split_once(" || ") else {
            return Ok(Some(String::from_str(alloc, line)?));
        };
        let found = last_of(alloc, text)?;
        if found.as_str() != wanted {
            return Ok(Some(found));
        }
    }
    Ok(None)
}

/// All that the text means, a line for each rule and unit.
fn all_of(alloc: Global, text: &str) -> Result<String, AllocError> {
    let mut all = String::new(alloc);
    if let Some(set) = read(alloc, text)? {
        for rule in set.rules.iter() {
            all.push_str(rule_text(alloc, rule)?.as_str())?;
            all.push('\n')?;
        }
        for unit in set.units.iter() {
            all.push_str(unit_text(alloc, unit)?.as_str())?;
            all.push('\n')?;
        }
    }
    Ok(all)
}

/// The canonical text of a text.
fn canonical(alloc: Global, text: &str) -> Result<String, AllocError> {
    match parse(alloc, text) {
        Ok(syntax) => Ok(print(alloc, &syntax)?.into_string()),
        Err(_) => String::from_str(alloc, "no text"),
    }
}

/// Rules and units of a bank.
const BANK: &str = "\
rule transfer(in from: Account, in to: Account, in amount: int) {
  preserve node from: Account; preserve node to: Account;
  where (amount > 0) and (from.balance >= amount);
  set from.balance = from.balance - amount; set to.balance = to.balance + amount;
}
rule lone(out c: Client) { create node c: Client; }
rule openAccount(in c: Client, out a: Account) {
  preserve node c: Client; create node a: Account; create edge c -> a: accounts;
}
rule dropClient(in c: Client) { delete node c: Client; }
rule dropAccount(in a: Account) { delete node a: Account; }
rule unlink(in c: Client, in a: Account) {
  preserve node c: Client; preserve node a: Account; delete edge c -> a: accounts;
}
rule two() { preserve node x: Account; preserve node y: Account; }
rule add(in a: Account) { preserve node a: Account; set a.balance = a.balance + 1; }
rule dropTwice() {
  preserve node y: Client; delete node x: Account;
  delete edge y -> x: accounts; delete edge y -> x: accounts;
}
rule touch() {
  preserve node q: Client; preserve node p: Account;
  preserve edge q -> p: accounts; preserve edge q -> p: accounts;
}
rule assign(in a: Account, in c: Client) {
  preserve node a: Account; preserve node c: Client;
  create edge a -> c: owner; forbid { edge a -> c: owner; }
}
rule unassign(in a: Account, in c: Client) {
  preserve node a: Account; preserve node c: Client; delete edge a -> c: owner;
}
rule openOwned(in c: Client, out a: Account) {
  preserve node c: Client; create node a: Account; create edge a -> c: owner;
}
rule reset(in a: Account) {
  preserve node a: Account; set a.balance = 0; forbid { node d: Client; edge a -> d: owner; }
}
rule purge(in x: Account) {
  delete node x: Account; multi { preserve node y: Client; delete edge y -> x: accounts; }
}
rule wide() {
  preserve node n0: Client; preserve node n1: Client; preserve node n2: Client;
  preserve node n3: Client; preserve node n4: Client; preserve node n5: Client;
  preserve node n6: Client; delete edge n0 -> n1: knows;
}
rule seven() {
  preserve node n0: Client; preserve node n1: Client; preserve node n2: Client;
  preserve node n3: Client; preserve node n4: Client; preserve node n5: Client;
  preserve node n6: Client;
}
unit nothing() sequential { }
unit spin() loop { nothing(); }
unit never(in a: Account) iterated 0 { add(a = a); }
unit both(in a: Account) conditional { if add(a = a); then add(a = a); }
unit pay(in c: Client, in from: Account, in to: Account, in amount: int, out n: Account)
sequential { openAccount(c = c, a > n); transfer(from = from, to = to, amount = amount); }";

#[test]
fn canonical_text_means_the_same(rt: HostRuntime) -> Result<(), Fail> {
    let printed = canonical(rt.alloc(), BANK)?;
    let meant = all_of(rt.alloc(), BANK)?;
    let again = all_of(rt.alloc(), printed.as_str())?;
    assert!(rt; printed.as_str() != BANK);
    assert!(rt; meant.lines().count() == 22);
    assert!(rt; meant == again, "{again:?}");
    Ok(())
}

#[test]
fn kernels_are_understood(rt: HostRuntime) -> Result<(), Fail> {
    let table = "\
rule transfer(in from: Account, in to: Account, in amount: int) { preserve node from: Account; preserve node to: Account; where (amount > 0) and (from.balance >= amount); set from.balance = from.balance - amount; set to.balance = to.balance + amount; } || transfer( In from:Object(2) In to:Object(2) In amount:Data(Int) ) from:2:Keep to:2:Keep 0.Attribute(3):true 1.Attribute(3):true where ((p2 Greater Int(0)) And (0.3 AtLeast p2)) set 0.3=(0.3 Minus p2) set 1.3=(1.3 Plus p2)
rule lone(out c: Client) { create node c: Client; } || lone( Out c:Object(1) ) c:1:Make
rule openAccount(in c: Client, out a: Account) { preserve node c: Client; create node a: Account; create edge c -> a: accounts; } || openAccount( In c:Object(1) Out a:Object(2) ) c:1:Keep a:2:Make 0-1>1:Make
rule dropClient(in c: Client) { delete node c: Client; } || dropClient( In c:Object(1) ) c:1:Drop
rule unlink(in c: Client, in a: Account) { preserve node c: Client; preserve node a: Account; delete edge c -> a: accounts; } || unlink( In c:Object(1) In a:Object(2) ) c:1:Keep a:2:Keep 0-1>1:Drop
rule two() { preserve node x: Account; preserve node y: Account; } || two( ) x:2:Keep y:2:Keep
rule dropTwice() { preserve node y: Client; delete node x: Account; delete edge y -> x: accounts; delete edge y -> x: accounts; } || dropTwice( ) y:1:Keep x:2:Drop 0-1>1:Drop 0-1>1:Drop
rule touch() { preserve node q: Client; preserve node p: Account; preserve edge q -> p: accounts; preserve edge q -> p: accounts; } || touch( ) q:1:Keep p:2:Keep 0-1>1:Keep 0-1>1:Keep
rule unassign(in a: Account, in c: Client) { preserve node a: Account; preserve node c: Client; delete edge a -> c: owner; } || unassign( In a:Object(2) In c:Object(1) ) a:2:Keep c:1:Keep 0-4>1:Drop
rule openOwned(in c: Client, out a: Account) { preserve node c: Client; create node a: Account; create edge a -> c: owner; } || openOwned( In c:Object(1) Out a:Object(2) ) c:1:Keep a:2:Make 1-4>0:Make
rule wide() { delete edge n0 -> n1: knows; preserve node n0: Client; preserve node n1: Client; preserve node n2: Client; } || wide( ) n0:1:Keep n1:1:Keep n2:1:Keep 0-2>1:Drop
rule add(in a: Account) { preserve node a: Account; set a.balance = a.balance + 1; } || add( In a:Object(2) ) a:2:Keep 0.Attribute(3):true set 0.3=(0.3 Plus Int(1))
rule first(out a: Account) { create node a: Account; preserve node t: Account; set a.balance = t.balance; } || first( Out a:Object(2) ) a:2:Make t:2:Keep 1.Attribute(3):false set 0.3=1.3
rule last() { preserve node a: Account; delete node b: Account; where b.balance > 0; set a.balance = 1; where a.name == b.name; } || last( ) a:2:Keep b:2:Drop 0.Attribute(0):false 0.Attribute(3):true 1.Attribute(0):false 1.Attribute(3):false where (1.3 Greater Int(0)) where (0.0 Equal 1.0) set 0.3=Int(1)";
    let wrong = first_wrong(rt.alloc(), table)?;
    assert!(rt; wrong.is_none(), "{wrong:?}");
    Ok(())
}

#[test]
fn blocks_go_on_from_the_kernel(rt: HostRuntime) -> Result<(), Fail> {
    let table = "\
rule assign(in a: Account, in c: Client) { preserve node a: Account; preserve node c: Client; create edge a -> c: owner; forbid { edge a -> c: owner; } } || assign( In a:Object(2) In c:Object(1) ) a:2:Keep c:1:Keep 0-4>1:Make forbid( 0-4>1:Keep )
rule reset(in a: Account) { preserve node a: Account; set a.balance = 0; forbid { node d: Client; edge a -> d: owner; } } || reset( In a:Object(2) ) a:2:Keep 0.Attribute(3):true forbid( d:1:Keep 0-4>1:Keep ) set 0.3=Int(0)
rule purge(in x: Account) { delete node x: Account; multi { preserve node y: Client; delete edge y -> x: accounts; } } || purge( In x:Object(2) ) x:2:Drop multi( y:1:Keep 1-1>0:Drop )
rule all() { forbid { node d: Client; } multi { delete node f: Account; } preserve node a: Account; require { node e: Client; node g: Client; edge g -> a: accounts; } create node c: Account; multi { preserve node b: Client; preserve edge b -> a: accounts; where a.balance > 0; set b.name = a.name; } } || all( ) a:2:Keep c:2:Make 0.Attribute(0):false 0.Attribute(3):false forbid( d:1:Keep ) require( e:1:Keep g:1:Keep 3-1>0:Keep ) multi( f:2:Drop ) multi( b:1:Keep 2-1>0:Keep 2.Attribute(0):true where (0.3 Greater Int(0)) set 2.0=0.0 )";
    let wrong = first_wrong(rt.alloc(), table)?;
    assert!(rt; wrong.is_none(), "{wrong:?}");
    Ok(())
}

#[test]
fn units_are_understood(rt: HostRuntime) -> Result<(), Fail> {
    let table = "\
unit a() sequential { } unit b() sequential { } unit c() priority { b(); a(); } || c( ) priority Unit(1) Unit(0)
rule r() { } rule s() { } unit u() independent { s(); r(); v(); } || nothing
unit v() sequential { } rule r() { } rule s() { } unit u() independent { s(); r(); v(); } || u( ) independent Rule(1) Rule(0) Unit(0)
rule r(in n: int, in t: text, in b: bool, in c: Client, out a: Account) { preserve node c: Client; create node a: Account; } unit u(in x: Client, out y: Account) loop { r(n = -007, t = \"x\", b = true, c = x, a > y); } || u( In x:Object(1) Out y:Object(2) ) loop Rule(0) n=-7 t=\"x\" b=true c=x a>y
rule r(in n: int) { } unit u(in n: int) iterated n { r(n = 9223372036854775807); } || u( In n:Data(Int) ) iterated n Rule(0) n=9223372036854775807
rule r() { } unit u() iterated 3 { r(); } || u( ) iterated 3 Rule(0)
rule r() { } rule s() { } unit u() conditional { if r(); then s(); else r(); } || u( ) if Rule(0) then Rule(1) else Rule(0)
rule r() { } unit u(in t: text, in b: bool) conditional { if r(); then r(); } || u( In t:Data(Text) In b:Data(Bool) ) if Rule(0) then Rule(0)";
    let wrong = first_wrong(rt.alloc(), table)?;
    assert!(rt; wrong.is_none(), "{wrong:?}");
    Ok(())
}

#[test]
fn faults_are_told(rt: HostRuntime) -> Result<(), Fail> {
    let table = "\
rule r() { preserve node a: Nothing; } || nothing
unit u() loop { u(); } || nothing";
    let wrong = first_wrong(rt.alloc(), table)?;
    assert!(rt; wrong.is_none(), "{wrong:?}");
    Ok(())
}

#[test]
fn conditions_over_all_kinds_are_kept(rt: HostRuntime) -> Result<(), Fail> {
    let table = "\
rule mix(in n: int, in t: text, in b: bool) { preserve node a: Account; where a.balance > n; where a.name == t; where b; multi { preserve node c: Account; where c.balance < n; where c.name == t; where not b; set c.name = t; } set a.balance = n; } || mix( In n:Data(Int) In t:Data(Text) In b:Data(Bool) ) a:2:Keep 0.Attribute(0):false 0.Attribute(3):true multi( c:2:Keep 1.Attribute(0):true 1.Attribute(3):false where (1.3 Less p0) where (1.0 Equal p1) where (Not p2) set 1.0=p1 ) where (0.3 Greater p0) where (0.0 Equal p1) where p2 set 0.3=p0";
    let wrong = first_wrong(rt.alloc(), table)?;
    assert!(rt; wrong.is_none(), "{wrong:?}");
    Ok(())
}
