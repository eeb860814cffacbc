//! What is reported of texts of rules and units.

use hs_expr::Failure;
use hs_faults::{RuleFault, Within, check, check_rules};
use hs_tests_model::model_of;
use hs_text::parse;
use hs_types::Meta;
use std::alloc::{AllocError, Global};
use std::test::Fail;

/// Client and Account, both below the abstract class Thing, and the abstract class Ghost, which
/// none is below. A thing has a name, a client accounts, and an account a balance, whether it is
/// open, an owner, and what it is about.
const MODEL: &str =
    r#"{"classes":[{"name":"Thing","abstract":true,"attributes":[{"name":"name","type":"EString"}]},{"name":"Client","supers":["Thing"],"references":[{"name":"accounts","target":"Account","upper":-1}]},{"name":"Account","supers":["Thing"],"attributes":[{"name":"balance","type":"EInt"},{"name":"open","type":"EBoolean"}],"references":[{"name":"owner","target":"Client","upper":-1},{"name":"about","target":"Thing","upper":-1}]},{"name":"Ghost","abstract":true}]}"#;

/// Position, place and kind of the fault, or `fine`.
fn answer_text<T: Drop>(
    alloc: Global,
    answer: Result<T, Failure<RuleFault>>,
) -> Result<String, AllocError> {
    match answer {
        Ok(_) => String::from_str(alloc, "fine"),
        Err(Failure::Fault(fault)) => {
            let place = match fault.within {
                Within::Unit => "unit",
                Within::Rule => "rule",
            };
            format!(in alloc; "{}:{} {place} {:?}", fault.line, fault.column, fault.kind)
        }
        Err(Failure::NoMemory) => String::from_str(alloc, "no memory"),
    }
}

fn report_of(alloc: Global, meta: &Meta, text: &str) -> Result<String, AllocError> {
    match parse(alloc, text) {
        Ok(syntax) => answer_text(alloc, check(alloc, meta, &syntax)),
        Err(_) => String::from_str(alloc, "no text"),
    }
}

/// Whether this is reported of the text.
pub fn is_reported(alloc: Global, text: &str, report: &str) -> Result<bool, AllocError> {
    match model_of(alloc, MODEL) {
        Some(meta) => Ok(report_of(alloc, &meta, text)?.as_str() == report),
        None => Ok(false),
    }
}

/// Whether what follows the line's bars is reported of its text, which the tail ends, at the place
/// where the line has `^`.
fn is_right(alloc: Global, meta: &Meta, line: &str, tail: &str) -> Result<bool, AllocError> {
    let Some((text, kind)) = line.split_once(" || ") else {
        return Ok(false);
    };
    let (front, back) = text.split_once("^").unwrap_or((text, ""));
    let text = format!(in alloc; "{front}{back}{tail}")?;
    let report = report_of(alloc, meta, text.as_str())?;
    if kind == "fine" {
        return Ok(report.as_str() == kind);
    }
    let wanted = format!(in alloc; "1:{} {kind}", front.len().saturating_add(1))?;
    Ok(report.as_str() == wanted.as_str())
}

/// The first line of the table that is wrong.
pub fn first_wrong<'a>(
    alloc: Global,
    table: &'a str,
    tail: &str,
) -> Result<Option<&'a str>, AllocError> {
    let Some(meta) = model_of(alloc, MODEL) else {
        return Ok(Some(table));
    };
    for line in table.lines() {
        if !is_right(alloc, &meta, line, tail)? {
            return Ok(Some(line));
        }
    }
    Ok(None)
}

/// Whether the check of rules alone reports this of the text.
fn is_reported_of_rules(alloc: Global, text: &str, report: &str) -> Result<bool, AllocError> {
    match (model_of(alloc, MODEL), parse(alloc, text)) {
        (Some(meta), Ok(syntax)) => {
            let answer = check_rules(alloc, &meta, &syntax);
            Ok(answer_text(alloc, answer)?.as_str() == report)
        }
        _ => Ok(false),
    }
}

#[test]
fn the_check_of_rules_leaves_units_out(rt: HostRuntime) -> Result<(), Fail> {
    let alloc = rt.alloc();
    let fine = "rule r() { } unit u() loop { x(); } rule u() { }";
    assert!(rt; is_reported_of_rules(alloc, fine, "fine")?);
    let wrong = "unit u() loop { x(); } rule r() { where 1; }";
    assert!(rt; is_reported_of_rules(alloc, wrong, "1:35 rule BadKind")?);
    Ok(())
}
