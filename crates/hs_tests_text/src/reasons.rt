//! Conflict reasons of the rules of a bank.

ghost use Rattle.std.specs.Option.{option_copied};
ghost use Rattle.std.specs.Prelude.{IfOk, IfSome, None, ◌≡◌};
ghost use Rattle.hs_tests_text.specs.Sides.{IsSide};
ghost use Rattle.hs_types.specs.Limits.{IsSmallRule};
ghost use Rattle.hs_types.specs.RuleForm.{IsRule};

use hs_check::check;
use hs_overlap::laws::{inverse_is_an_involution, left_sides_occur};
use hs_overlap::{Pair, Pattern, SubShape, deletion_context, inverse, is_closed, weight};
use hs_tests_model::model_of;
use hs_text::parse;
use hs_types::{Rule, RuleSet, Shape};
use std::alloc::{AllocError, Global};
use std::sync::Arc;
use std::test::Fail;

/// Clients with accounts, and accounts with a balance and an owner. A savings account is an account.
const MODEL: &str =
    r#"{"classes":[{"name":"Client","references":[{"name":"accounts","target":"Account","upper":-1}]},{"name":"Account","attributes":[{"name":"balance","type":"EInt"}],"references":[{"name":"owner","target":"Client"}]},{"name":"Savings","supers":["Account"]}]}"#;

const RULES: &str = "\
rule openAccount(in c: Client, out a: Account) {
  preserve node c: Client; create node a: Account; create edge c -> a: accounts;
}
rule dropClient(in c: Client) { delete node c: Client; }
rule unlink(in c: Client, in a: Account) {
  preserve node c: Client; preserve node a: Account; delete edge c -> a: accounts;
}
rule add(in a: Account) { preserve node a: Account; set a.balance = a.balance + 1; }
rule save(in a: Savings) { preserve node a: Savings; set a.balance = a.balance + 2; }
rule dropTwice() {
  preserve node y: Client; delete node x: Account;
  delete edge y -> x: accounts; delete edge y -> x: accounts;
}
rule touch() {
  preserve node q: Client; preserve node p: Account;
  preserve edge q -> p: accounts; preserve edge q -> p: accounts;
}
rule wide() {
  preserve node n0: Client; preserve node n1: Client; preserve node n2: Client;
  preserve node n3: Client; preserve node n4: Client; preserve node n5: Client;
  preserve node n6: Client;
}";

fn rules_of(alloc: Global) -> Result<Option<RuleSet>, AllocError> {
    let Some(meta) = model_of(alloc, MODEL) else {
        return Ok(None);
    };
    let Ok(syntax) = parse(alloc, RULES) else {
        return Ok(None);
    };
    let meta = Arc::new(alloc, meta)?;
    Ok(check(alloc, &meta, &syntax).ok())
}

fn rule_at(set: &RuleSet, i: usize) -> Option<&Rule>
    ensures { IfSome (option_copied result) (λ rule. IsRule set.now.meta rule
        × IsSmallRule rule) }
{
    set.are_formed();
    set.rules.get(i)
}

/// The rule's number, or one that no rule has.
fn number_of(set: &RuleSet, name: &str) -> usize {
    for i in 0..set.rules.len() {
        if set.rules.as_slice()[i].name.as_str() == name {
            return i;
        }
    }
    set.rules.len()
}

/// The left side of the rule of this name, or of its inverse where `~` is before the name.
fn side_of(alloc: Global, set: &RuleSet, name: &str) -> Result<Option<Shape>, AllocError>
    ensures { IfOk result (λ side. IfSome side (IsSide set.now.meta)) }
{
    match name.strip_prefix("~") {
        Some(rest) => inverse_at(alloc, set, number_of(set, rest)),
        None => shape_at(alloc, set, number_of(set, name)),
    }
}

fn inverse_at(alloc: Global, set: &RuleSet, i: usize) -> Result<Option<Shape>, AllocError>
    ensures { IfOk result (λ side. IfSome side (IsSide set.now.meta)) }
{
    left_sides_occur();
    match rule_at(set, i) {
        Some(rule) => Ok(Some(inverse(alloc, &rule.shape)?)),
        None => Ok(None),
    }
}

fn shape_at(alloc: Global, set: &RuleSet, i: usize) -> Result<Option<Shape>, AllocError>
    ensures { IfOk result (λ side. IfSome side (IsSide set.now.meta)) }
{
    left_sides_occur();
    inverse_is_an_involution();
    match rule_at(set, i) {
        Some(rule) => Ok(Some(inverse(alloc, &inverse(alloc, &rule.shape)?)?)),
        None => Ok(None),
    }
}

fn is_reason(set: &RuleSet, first: &Shape, second: &Pattern, span: &[Pair]) -> bool
    requires one { IsSide set.now.meta first.now }
    requires other { IsSide set.now.meta second.now.shape }
    requires alone { second.now.extra ≡ None }
{
    set.are_formed();
    is_closed(&set.meta, first, second, span)
}

fn weight_of(set: &RuleSet, first: &Shape, second: &Pattern) -> u64
    requires one { IsSide set.now.meta first.now }
    requires other { IsSide set.now.meta second.now.shape }
    requires alone { second.now.extra ≡ None }
{
    weight(&set.meta, first, second)
}

fn context_of(alloc: Global, set: &RuleSet, shape: &Shape) -> Result<SubShape, AllocError>
    requires { IsSide set.now.meta shape.now }
{
    deletion_context(alloc, shape)
}

/// Whether the span is a reason of the two rules; none where a rule isn't there.
fn decided(
    alloc: Global,
    set: &RuleSet,
    first: &str,
    second: &str,
    span: &[Pair],
) -> Result<Option<bool>, AllocError> {
    let Some(one) = side_of(alloc, set, first)? else {
        return Ok(None);
    };
    let Some(shape) = side_of(alloc, set, second)? else {
        return Ok(None);
    };
    let other = Pattern { shape, extra: None };
    Ok(Some(is_reason(set, &one, &other, span)))
}

fn weighed(
    alloc: Global,
    set: &RuleSet,
    first: &str,
    second: &str,
) -> Result<Option<u64>, AllocError> {
    let Some(one) = side_of(alloc, set, first)? else {
        return Ok(None);
    };
    let Some(shape) = side_of(alloc, set, second)? else {
        return Ok(None);
    };
    let other = Pattern { shape, extra: None };
    Ok(Some(weight_of(set, &one, &other)))
}

/// The numbers of the deletion context's nodes, edges and slots.
fn context_text(alloc: Global, set: &RuleSet, name: &str) -> Result<String, AllocError> {
    match side_of(alloc, set, name)? {
        Some(side) => {
            let context = context_of(alloc, set, &side)?;
            numbers_text(alloc, &context)
        }
        None => String::from_str(alloc, "no rule"),
    }
}

fn numbers_text(alloc: Global, context: &SubShape) -> Result<String, AllocError> {
    format!(in alloc;
        "{:?} {:?} {:?}",
        context.nodes.as_slice(),
        context.edges.as_slice(),
        context.slots.as_slice()
    )
}

/// The span of a text: each pair is `n`, `e` or `s` and two digits.
fn span_of(alloc: Global, text: &str) -> Result<Vec<Pair>, AllocError> {
    let mut span = Vec::new(alloc);
    for word in text.split_whitespace() {
        if let Some(pair) = pair_of(word.as_bytes()) {
            span.push(pair)?;
        }
    }
    Ok(span)
}

fn pair_of(word: &[u8]) -> Option<Pair> {
    let i = usize::from(word.get(1)?.saturating_sub(b'0'));
    let j = usize::from(word.get(2)?.saturating_sub(b'0'));
    match word.first()? {
        b'n' => Some(Pair::Node(i, j)),
        b'e' => Some(Pair::Edge(i, j)),
        b's' => Some(Pair::Slot(i, j)),
        _ => None,
    }
}

/// Whether the line has two rules, a span of them and, after its bars, whether it is a reason.
fn is_right(alloc: Global, set: &RuleSet, line: &str) -> Result<bool, AllocError> {
    let Some((case, want)) = line.split_once(" || ") else {
        return Ok(false);
    };
    let Some((names, pairs)) = case.split_once(":") else {
        return Ok(false);
    };
    let Some((first, second)) = names.split_once(" ") else {
        return Ok(false);
    };
    let span = span_of(alloc, pairs)?;
    let found = decided(alloc, set, first, second, span.as_slice())?;
    Ok(found == Some(want == "reason"))
}

/// The first line of the table that is wrong.
fn first_wrong<'a>(
    alloc: Global,
    set: &RuleSet,
    table: &'a str,
) -> Result<Option<&'a str>, AllocError> {
    for line in table.lines() {
        if !is_right(alloc, set, line)? {
            return Ok(Some(line));
        }
    }
    Ok(None)
}

const REASONS: &str = "\
dropClient openAccount: n00 || reason
dropClient openAccount: || no
dropClient openAccount: n01 || no
openAccount dropClient: n00 || no
dropClient touch: n00 || no
dropTwice touch: n00 n11 e00 e11 || reason
dropTwice touch: n00 n11 e01 e10 || reason
dropTwice touch: n00 n11 || no
dropTwice touch: n11 || no
dropTwice touch: n11 e00 e11 || no
dropTwice touch: n00 n11 e00 || no
dropTwice touch: n00 n11 e00 e10 || no
dropTwice touch: n00 n11 e11 e00 || no
dropTwice touch: n00 || no
dropTwice unlink: n00 n11 e00 || reason
dropTwice unlink: n00 n11 e10 || reason
unlink touch: n00 n11 e00 || reason
unlink touch: n00 n11 e01 || reason
unlink touch: n00 n11 || no
unlink touch: n00 e00 || no
unlink dropTwice: n00 n11 e00 || reason
~openAccount unlink: n00 n11 e00 || reason
~openAccount unlink: n11 e00 || no
~openAccount unlink: n11 || no
~openAccount unlink: n00 n11 || no
add add: n00 s00 || reason
add add: n00 || no
add add: s00 || no
add add: s00 n00 || no
add add: n00 n00 s00 || no
add add: n00 s00 s01 || no
add save: n00 s00 || reason
save add: n00 s00 || reason
add dropClient: n00 s00 || no";

#[test]
fn decides_reasons(rt: HostRuntime) -> Result<(), Fail> {
    let alloc = rt.alloc();
    let Some(set) = rules_of(alloc)? else {
        return Err(Fail::new("the rules are sound"));
    };
    let wrong = first_wrong(alloc, &set, REASONS)?;
    assert!(rt; wrong.is_none(), "{wrong:?}");
    Ok(())
}

#[test]
fn weighs_pairs_of_rules(rt: HostRuntime) -> Result<(), Fail> {
    let alloc = rt.alloc();
    let Some(set) = rules_of(alloc)? else {
        return Err(Fail::new("the rules are sound"));
    };
    for (first, second, want) in [
        ("touch", "touch", 36),
        ("unlink", "touch", 12),
        ("dropTwice", "dropClient", 2),
        ("openAccount", "openAccount", 2),
        ("~openAccount", "unlink", 8),
        ("save", "add", 2),
        ("wide", "add", 1),
        ("wide", "wide", 1_000_001),
        ("wide", "touch", 128),
    ] {
        let found = weighed(alloc, &set, first, second)?;
        assert!(rt; found == Some(want), "{first} {second} {found:?}");
    }
    Ok(())
}

#[test]
fn finds_what_is_deleted(rt: HostRuntime) -> Result<(), Fail> {
    let alloc = rt.alloc();
    let Some(set) = rules_of(alloc)? else {
        return Err(Fail::new("the rules are sound"));
    };
    for (name, want) in [
        ("touch", "[] [] []"),
        ("dropClient", "[0] [] []"),
        ("unlink", "[0, 1] [0] []"),
        ("dropTwice", "[0, 1] [0, 1] []"),
        ("add", "[0] [] [0]"),
        ("openAccount", "[] [] []"),
        ("~openAccount", "[0, 1] [0] []"),
        ("~dropTwice", "[] [] []"),
    ] {
        let found = context_text(alloc, &set, name)?;
        assert!(rt; found.as_str() == want, "{name} {found:?}");
    }
    Ok(())
}
