//! The lines of a report.

ghost use Rattle.std.specs.Prelude.{◌≡◌, ℕ, List, [], ◌++◌, ◌∷◌, IfOk, OnOk, map, string_bytes, codes, false};
ghost use Rattle.serde_json.specs.Data.{Data, string, no_members};
ghost use Rattle.serde_json.specs.View.{view, members_view};
ghost use Rattle.serde_json.specs.Written.{compact_text};
ghost use Rattle.std.specs.List.{enumerate_from};
ghost use Rattle.hs_json_model.specs.Written.{with_members, object_data, list_data, value_data, graph_data};
ghost use Rattle.henshin.specs.ReportText.{number_data, arg_data, args_data, rule_name, extension_data, gone_data, values_data, match_members, change_members, outcome_members, tried_members, what_members, entry_data, word_text, outs_data, reply_data, report_text};
ghost use Rattle.hs_json_model.specs.Written.{lines_of};

use hs_expr::{List, Text, Value as Datum};
use hs_json_model::{
    Members, add_line, datum_value, list_value, text_value, texts_value, with_graph,
};
use hs_session::{Reply, Report, Word};
use hs_types::{
    Arg, Args, Entry, ExtensionNames, Gone, ListGraph, MatchNames, NamedArg, NamedValue, Outcome,
    Outs, RuleSet, Tried, What,
};
use serde_json::{Value, json, put};
use std::alloc::{AllocError, Global};

/// The text of a report: a line for each entry, then for each reply, then for the graph.
pub fn report_text(alloc: Global, rules: &RuleSet, report: &Report) -> Result<Text, AllocError>
    ensures { IfOk result (λ text. text ≡ report_text rules.now report.now) }
{
    let mut text = String::new(alloc);
    add_entries(alloc, &mut text, rules, report.journal.as_slice())?;
    add_replies(alloc, &mut text, report.replies.as_slice())?;
    let mut text = with_typed_graph(alloc, text, &report.graph)?;
    text.push('\n')?;
    Ok(Text::from_string(text))
}

/// The text, and after it that of a graph over its own metamodel.
fn with_typed_graph(alloc: Global, text: String, graph: &ListGraph) -> Result<String, AllocError>
    ensures { IfOk result (λ written. string_bytes written
        ≡ string_bytes text ++ compact_text (graph_data graph.now.meta graph.now.graph)) }
{
    with_graph(alloc, text, graph.meta(), graph)
}

fn add_entries(
    alloc: Global,
    text: &mut String,
    rules: &RuleSet,
    entries: &[Entry],
) -> Result<(), AllocError>
    ensures { OnOk result (string_bytes text.new ≡ string_bytes text.old
        ++ lines_of (map (λ e. entry_data rules.now e.0 e.1) (enumerate_from 0 entries.now))) }
{
    for (place, entry) in entries.iter().enumerate() {
        let line = entry_value(alloc, rules, place, entry)?;
        add_line(alloc, text, &line)?;
    }
    Ok(())
}

fn add_replies(alloc: Global, text: &mut String, replies: &[Reply]) -> Result<(), AllocError>
    ensures { OnOk result
        (string_bytes text.new ≡ string_bytes text.old ++ lines_of (map reply_data replies.now)) }
{
    for reply in replies {
        let line = reply_value(alloc, reply)?;
        add_line(alloc, text, &line)?;
    }
    Ok(())
}

fn numbers_value(alloc: Global, numbers: &List<u32>) -> Result<Value, AllocError>
    ensures { IfOk result (λ v. view v ≡ list_data number_data numbers.now) }
{
    list_value(alloc, numbers, &|number: &u32| number_value(*number))
}

fn number_value(number: u32) -> Result<Value, AllocError>
    ensures { IfOk result (λ v. view v ≡ number_data number) }
{
    Ok(Value::from(number))
}

fn arg_value(alloc: Global, arg: &Arg) -> Result<Value, AllocError>
    ensures { IfOk result (λ v. view v ≡ arg_data arg.now) }
{
    match arg {
        Arg::Value(datum) => datum_value(alloc, datum),
        Arg::Object(name) => text_value(alloc, name),
    }
}

fn args_value(alloc: Global, args: &Args) -> Result<Value, AllocError>
    ensures { IfOk result (λ v. view v ≡ args_data args.now) }
{
    let mut members = Members::new(alloc);
    for named in args.list.as_slice() {
        let value = arg_value(alloc, &named.arg)?;
        put(&mut members, alloc, named.name.as_str(), value)?;
    }
    Ok(Value::Object(members))
}

fn entry_value(
    alloc: Global,
    rules: &RuleSet,
    place: usize,
    entry: &Entry,
) -> Result<Value, AllocError>
    ensures { IfOk result (λ v. view v ≡ entry_data rules.now place entry.now) }
{
    let mut members = what_members(alloc, rules, &entry.what)?;
    put(&mut members, alloc, "place", Value::from(place))?;
    put(&mut members, alloc, "request", Value::from(entry.request))?;
    put(&mut members, alloc, "session", Value::from(entry.session))?;
    Ok(Value::Object(members))
}

fn what_members(alloc: Global, rules: &RuleSet, what: &What) -> Result<Members, AllocError>
    ensures { IfOk result
        (λ m. members_view m.entries ≡ with_members no_members (what_members rules.now what.now)) }
{
    match what {
        What::One(tried) => tried_members(alloc, rules, tried),
        What::Group { attempts, done } => group_members(alloc, rules, attempts, *done),
    }
}

fn group_members(
    alloc: Global,
    rules: &RuleSet,
    attempts: &List<Tried>,
    done: bool,
) -> Result<Members, AllocError>
    ensures { IfOk result (λ m. members_view m.entries
        ≡ with_members no_members (what_members rules.now (What.Group attempts.now done))) }
{
    let attempts = list_value(
        alloc,
        attempts,
        &|tried: &Tried| -> Result<Value, AllocError>
            ensures { IfOk result
                (λ v. view v ≡ object_data (tried_members rules.entry.now tried.now)) }
        { tried_value(alloc, rules, tried) },
    )?;
    let mut members = Members::new(alloc);
    put(&mut members, alloc, "attempts", attempts)?;
    put(&mut members, alloc, "done", Value::from(done))?;
    Ok(members)
}

fn tried_value(alloc: Global, rules: &RuleSet, tried: &Tried) -> Result<Value, AllocError>
    ensures { IfOk result (λ v. view v ≡ object_data (tried_members rules.now tried.now)) }
{
    Ok(Value::Object(tried_members(alloc, rules, tried)?))
}

fn tried_members(alloc: Global, rules: &RuleSet, tried: &Tried) -> Result<Members, AllocError>
    ensures { IfOk result (λ m. members_view m.entries
        ≡ with_members no_members (tried_members rules.now tried.now)) }
{
    let mut members = Members::new(alloc);
    put(&mut members, alloc, "args", args_value(alloc, &tried.args)?)?;
    put(&mut members, alloc, "attempt", Value::from(tried.attempt))?;
    let rule = Value::try_from_str(alloc, rule_name(rules, tried.rule))?;
    put(&mut members, alloc, "rule", rule)?;
    add_outcome(alloc, &mut members, &tried.outcome)?;
    Ok(members)
}

fn add_outcome(alloc: Global, members: &mut Members, outcome: &Outcome) -> Result<(), AllocError>
    ensures { OnOk result (members_view members.new.entries
        ≡ with_members (members_view members.old.entries) (outcome_members outcome.now)) }
{
    match outcome {
        Outcome::Missed => {
            let missed = Value::try_from_str(alloc, "missed")?;
            put(members, alloc, "outcome", missed)
        }
        Outcome::Applied {
            found,
            new,
            old,
            gone,
        } => {
            let applied = Value::try_from_str(alloc, "applied")?;
            put(members, alloc, "outcome", applied)?;
            add_match(alloc, members, found)?;
            add_changes(alloc, members, new, old, gone)
        }
    }
}

/// Adds where a rule was applied.
fn add_match(alloc: Global, members: &mut Members, found: &MatchNames) -> Result<(), AllocError>
    ensures { OnOk result (members_view members.new.entries
        ≡ with_members (members_view members.old.entries) (match_members found.now)) }
{
    put(members, alloc, "nodes", texts_value(alloc, &found.nodes)?)?;
    put(members, alloc, "edges", numbers_value(alloc, &found.edges)?)?;
    put(
        members,
        alloc,
        "copies",
        copies_value(alloc, &found.copies)?,
    )
}

/// Adds what an application created, overwrote and deleted.
fn add_changes(
    alloc: Global,
    members: &mut Members,
    new: &List<Text>,
    old: &List<Datum>,
    gone: &List<Gone>,
) -> Result<(), AllocError>
    ensures { OnOk result (members_view members.new.entries ≡ with_members
        (members_view members.old.entries) (change_members new.now old.now gone.now)) }
{
    put(members, alloc, "new", texts_value(alloc, new)?)?;
    put(members, alloc, "old", old_value(alloc, old)?)?;
    put(members, alloc, "gone", gone_value(alloc, gone)?)
}

fn copies_value(alloc: Global, copies: &List<List<ExtensionNames>>) -> Result<Value, AllocError>
    ensures { IfOk result (λ v. view v ≡ list_data (list_data extension_data) copies.now) }
{
    list_value(
        alloc,
        copies,
        &|extensions: &List<ExtensionNames>| -> Result<Value, AllocError>
            ensures { IfOk result (λ v. view v ≡ list_data extension_data extensions.now) }
        { extensions_value(alloc, extensions) },
    )
}

fn extensions_value(alloc: Global, extensions: &List<ExtensionNames>) -> Result<Value, AllocError>
    ensures { IfOk result (λ v. view v ≡ list_data extension_data extensions.now) }
{
    list_value(
        alloc,
        extensions,
        &|extension: &ExtensionNames| -> Result<Value, AllocError>
            ensures { IfOk result (λ v. view v ≡ extension_data extension.now) }
        { extension_value(alloc, extension) },
    )
}

fn extension_value(alloc: Global, extension: &ExtensionNames) -> Result<Value, AllocError>
    ensures { IfOk result (λ v. view v ≡ extension_data extension.now) }
{
    let edges = numbers_value(alloc, &extension.edges)?;
    let nodes = texts_value(alloc, &extension.nodes)?;
    json!(in alloc; {"edges": edges, "nodes": nodes})
}

fn old_value(alloc: Global, old: &List<Datum>) -> Result<Value, AllocError>
    ensures { IfOk result (λ v. view v ≡ list_data value_data old.now) }
{
    list_value(
        alloc,
        old,
        &|datum: &Datum| -> Result<Value, AllocError>
            ensures { IfOk result (λ v. view v ≡ value_data datum.now) }
        { datum_value(alloc, datum) },
    )
}

fn gone_value(alloc: Global, gone: &List<Gone>) -> Result<Value, AllocError>
    ensures { IfOk result (λ v. view v ≡ list_data gone_data gone.now) }
{
    list_value(
        alloc,
        gone,
        &|object: &Gone| -> Result<Value, AllocError>
            ensures { IfOk result (λ v. view v ≡ gone_data object.now) }
        { gone_object_value(alloc, object) },
    )
}

fn gone_object_value(alloc: Global, object: &Gone) -> Result<Value, AllocError>
    ensures { IfOk result (λ v. view v ≡ gone_data object.now) }
{
    let attrs = values_value(alloc, object.values.as_slice())?;
    let class = text_value(alloc, &object.class)?;
    let name = text_value(alloc, &object.name)?;
    json!(in alloc; {"attrs": attrs, "class": class, "name": name})
}

fn values_value(alloc: Global, values: &[NamedValue]) -> Result<Value, AllocError>
    ensures { IfOk result (λ v. view v ≡ values_data values.now) }
{
    let mut members = Members::new(alloc);
    for named in values {
        let value = datum_value(alloc, &named.value)?;
        put(&mut members, alloc, named.attribute.as_str(), value)?;
    }
    Ok(Value::Object(members))
}

fn rule_name(rules: &RuleSet, rule: u16) -> &str
    ensures { result.now ≡ rule_name rules.now rule }
{
    match rules.rules.get(usize::from(rule)) {
        Some(rule) => rule.name.as_str(),
        None => "",
    }
}

fn reply_value(alloc: Global, reply: &Reply) -> Result<Value, AllocError>
    ensures { IfOk result (λ v. view v ≡ reply_data reply.now) }
{
    let outs = outs_value(alloc, &reply.outs)?;
    let places = numbers_value(alloc, &reply.places)?;
    let word = word_of(reply.word);
    let request = reply.request;
    let session = reply.session;
    json!(in alloc; {
        "outs": outs,
        "places": places,
        "reply": word,
        "request": request,
        "session": session,
    })
}

fn outs_value(alloc: Global, outs: &Outs) -> Result<Value, AllocError>
    ensures { IfOk result (λ v. view v ≡ outs_data outs.now) }
{
    let mut members = Members::new(alloc);
    for out in outs.list.as_slice() {
        let object = text_value(alloc, &out.object)?;
        put(&mut members, alloc, out.parameter.as_str(), object)?;
    }
    Ok(Value::Object(members))
}

fn word_of(word: Word) -> &'static str
    ensures { result.now ≡ word_text word }
{
    match word {
        Word::Ok => "ok",
        Word::NoMatch => "nomatch",
        Word::Failed => "failed",
        Word::Fuel => "fuel",
        Word::Full => "full",
        Word::Memory => "memory",
        Word::NoCall => "nocall",
        Word::BadArgs => "badargs",
    }
}
