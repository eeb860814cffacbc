//! What a bundle asks for.

ghost use Rattle.std.specs.Prelude.{◌≡◌, IfOk, not, option_and_then, option_map};
ghost use Rattle.std.specs.Option.{option_copied, option_map_or};
ghost use Rattle.serde_json.specs.Data.{Data};
ghost use Rattle.serde_json.specs.View.{view};
ghost use Rattle.hs_types.specs.Additions.{is_empty};
ghost use Rattle.hs_input.specs.Sessions as spec;
ghost use Rattle.hs_input.specs.Sessions.{seen};

use hs_expr::{List, Text};
use hs_types::{Args, Request, Rule, RuleSet};
use serde_json::Value;
use std::alloc::{AllocError, Global};

/// The fuel of a request that names none.
const DEFAULT_FUEL: u32 = 1_000;

/// The requests of each session in a bundle with these sessions and this journal, with these rules;
/// none where what is asked for isn't built.
pub fn sessions_asked(
    alloc: Global,
    rules: &RuleSet,
    sessions: Option<&Value>,
    journal: Option<&Value>,
) -> Result<Option<List<List<Request>>>, AllocError>
    ensures { IfOk result
        (λ asked. asked ≡ spec.sessions_asked rules.now.rules rules.now.units (seen sessions.entry)
        (seen journal.entry)) }
{
    if !has_none(journal) {
        return Ok(None);
    }
    if has_none(sessions) {
        return Ok(Some(List::new(alloc)));
    }
    Ok(match rule_called(rules, sessions) {
        Some(rule) => Some(once(alloc, rule)?),
        None => None,
    })
}

/// Whether the list is left out, or empty.
fn has_none(list: Option<&Value>) -> bool
    ensures { result ≡ spec.has_none (seen list.entry) }
{
    match list {
        Some(list) => is_empty_list(list),
        None => true,
    }
}

fn is_empty_list(value: &Value) -> bool
    ensures { result ≡ spec.is_empty_list (view value.now) }
{
    value.is_array() && value.get(0).is_none()
}

/// The one rule, where the sessions call it and it only adds.
fn rule_called<'a>(rules: &'a RuleSet, sessions: Option<&Value>) -> Option<&'a Rule>
    ensures { option_copied result
        ≡ spec.rule_called rules.now.rules rules.now.units (seen sessions.entry) }
{
    let rule = only_rule(rules)?;
    if is_built_rule(rule) && is_called(rule, sessions) {
        Some(rule)
    } else {
        None
    }
}

fn only_rule(rules: &RuleSet) -> Option<&Rule>
    ensures { option_copied result ≡ spec.only_rule rules.now.rules rules.now.units }
{
    match (rules.rules.as_slice(), rules.units.as_slice()) {
        ([rule], []) => Some(rule),
        _ => None,
    }
}

/// Whether the rule only adds, and has no parameters.
fn is_built_rule(rule: &Rule) -> bool
    ensures { result ≡ spec.is_built_rule rule.now }
{
    rule.only_adds() && has_no_params(rule)
}

fn has_no_params(rule: &Rule) -> bool
    ensures { result ≡ is_empty rule.now.params }
{
    matches!(rule.params.as_slice(), [])
}

fn is_called(rule: &Rule, sessions: Option<&Value>) -> bool
    ensures { result ≡ spec.is_called (seen sessions.entry) rule.now }
{
    match called(sessions) {
        Some(name) => rule.name.as_str() == name,
        None => false,
    }
}

/// What the sessions call.
fn called(sessions: Option<&Value>) -> Option<&str>
    ensures { option_map (λ name. name.now) result ≡ spec.called (seen sessions.entry) }
{
    call_in(sessions?)
}

/// What the one request of the one session calls, of which it says no more.
fn call_in(sessions: &Value) -> Option<&str>
    ensures { option_map (λ name. name.now) result ≡ spec.call_in (view sessions.now) }
{
    let session = only_item(sessions)?;
    let request = only_item(session)?;
    only_member(request, "call")?.as_str()
}

fn only_item(value: &Value) -> Option<&Value>
    ensures { option_map (λ v. view v.now) result ≡ spec.only_item (view value.now) }
{
    if value.get(1).is_some() {
        None
    } else {
        value.get(0)
    }
}

/// The value at this key of an object that has no other.
fn only_member<'a>(value: &'a Value, key: &str) -> Option<&'a Value>
    ensures { option_map (λ v. view v.now) result ≡ spec.only_member key.now (view value.now) }
{
    if has_one_member(value) {
        value.get(key)
    } else {
        None
    }
}

#[tactic(auto, using(crate::proofs::Members::count))]
fn has_one_member(value: &Value) -> bool
    ensures { result ≡ spec.has_one_member (view value.now) }
{
    match value.as_object() {
        Some(members) => members.len() == 1,
        None => false,
    }
}

/// One session, whose one request calls the rule.
fn once(alloc: Global, rule: &Rule) -> Result<List<List<Request>>, AllocError>
    ensures { IfOk result (λ sessions. sessions ≡ spec.once rule.now) }
{
    let mut session = List::new(alloc);
    session.push(plain_call(alloc, &rule.name)?)?;
    let mut sessions = List::new(alloc);
    sessions.push(session)?;
    Ok(sessions)
}

/// The request that calls this, and says no more.
fn plain_call(alloc: Global, name: &Text) -> Result<Request, AllocError>
    ensures { IfOk result (λ request. request ≡ spec.plain_call name.now) }
{
    Ok(Request {
        call: name.clone()?,
        args: Args {
            list: List::new(alloc),
        },
        fuel: DEFAULT_FUEL,
        group: false,
    })
}
