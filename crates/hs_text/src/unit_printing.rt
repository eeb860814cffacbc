//! The text of parameters, calls and units.

ghost use Rattle.std.specs.Prelude.{◌≡◌, ◌++◌, OnOk, [], string_bytes, map, codes};
ghost use Rattle.std.specs.List.{AllByRecursion, flat_map};
ghost use Rattle.hs_text.specs.Canonical.{param_text, params_text, commas, atom_text, bind_text, call_text, call_line, count_text, body_kind, body_lines, else_line, definition_text};

use crate::spelling::{direction_word, quoted, truth_word};
use crate::syntax::{Atom, Bind, Body, Call, Count, Definition, Param, Unit};
use std::alloc::{AllocError, Global};

fn write_param(out: &mut String, param: &Param) -> Result<(), AllocError>
    ensures { OnOk result (string_bytes out.new ≡ string_bytes out.old ++ param_text param.now) }
{
    out.push_str(direction_word(param.direction))?;
    out.push_str(" ")?;
    out.push_str(param.name.text.as_str())?;
    out.push_str(": ")?;
    out.push_str(param.kind.text.as_str())
}

/// Writes the parameters after the first.
fn write_more_params(out: &mut String, params: &[Param]) -> Result<(), AllocError>
    ensures { OnOk result (string_bytes out.new ≡ string_bytes out.old
        ++ flat_map (λ next. codes ", " ++ next) (map param_text params.now)) }
{
    for param in params {
        out.push_str(", ")?;
        write_param(out, param)?;
    }
    Ok(())
}

fn write_param_list(out: &mut String, params: &[Param]) -> Result<(), AllocError>
    ensures { OnOk result
        (string_bytes out.new ≡ string_bytes out.old ++ commas (map param_text params.now)) }
{
    match params {
        [] => Ok(()),
        [first, more @ ..] => {
            write_param(out, first)?;
            write_more_params(out, more)
        }
    }
}

/// Writes a list of parameters in parentheses.
pub fn write_params(out: &mut String, params: &[Param]) -> Result<(), AllocError>
    ensures { OnOk result (string_bytes out.new ≡ string_bytes out.old ++ params_text params.now) }
{
    out.push_str("(")?;
    write_param_list(out, params)?;
    out.push_str(")")
}

fn write_atom(alloc: Global, out: &mut String, atom: &Atom) -> Result<(), AllocError>
    ensures { OnOk result (string_bytes out.new ≡ string_bytes out.old ++ atom_text atom.now) }
{
    match atom {
        Atom::Int { minus, value, .. } => {
            if *minus {
                out.push_str("-")?;
            }
            out.push_str(format!(in alloc; "{value}")?.as_str())
        }
        Atom::Text { value, .. } => out.push_str(quoted(alloc, value)?.as_str()),
        Atom::Bool { value, .. } => out.push_str(truth_word(*value)),
        Atom::Name(name) => out.push_str(name.text.as_str()),
    }
}

fn write_bind(alloc: Global, out: &mut String, bind: &Bind) -> Result<(), AllocError>
    ensures { OnOk result (string_bytes out.new ≡ string_bytes out.old ++ bind_text bind.now) }
{
    match bind {
        Bind::Give { parameter, value } => {
            out.push_str(parameter.text.as_str())?;
            out.push_str(" = ")?;
            write_atom(alloc, out, value)
        }
        Bind::Take {
            parameter,
            variable,
        } => {
            out.push_str(parameter.text.as_str())?;
            out.push_str(" > ")?;
            out.push_str(variable.text.as_str())
        }
    }
}

/// Writes the binds after the first.
fn write_more_binds(alloc: Global, out: &mut String, binds: &[Bind]) -> Result<(), AllocError>
    ensures { OnOk result (string_bytes out.new
        ≡ string_bytes out.old ++ flat_map (λ next. codes ", " ++ next) (map bind_text binds.now)) }
{
    for bind in binds {
        out.push_str(", ")?;
        write_bind(alloc, out, bind)?;
    }
    Ok(())
}

fn write_bind_list(alloc: Global, out: &mut String, binds: &[Bind]) -> Result<(), AllocError>
    ensures { OnOk result
        (string_bytes out.new ≡ string_bytes out.old ++ commas (map bind_text binds.now)) }
{
    match binds {
        [] => Ok(()),
        [first, more @ ..] => {
            write_bind(alloc, out, first)?;
            write_more_binds(alloc, out, more)
        }
    }
}

fn write_call(alloc: Global, out: &mut String, call: &Call) -> Result<(), AllocError>
    ensures { OnOk result (string_bytes out.new ≡ string_bytes out.old ++ call_text call.now) }
{
    out.push_str(call.callee.text.as_str())?;
    out.push_str("(")?;
    write_bind_list(alloc, out, call.binds.as_slice())?;
    out.push_str(")")
}

/// Writes a line with a call, which begins so.
fn write_call_line(
    alloc: Global,
    out: &mut String,
    front: &str,
    call: &Call,
) -> Result<(), AllocError>
    ensures { OnOk result
        (string_bytes out.new ≡ string_bytes out.old ++ call_line front.now call.now) }
{
    out.push_str("  ")?;
    out.push_str(front)?;
    write_call(alloc, out, call)?;
    out.push_str(";\n")
}

fn write_call_lines(alloc: Global, out: &mut String, calls: &[Call]) -> Result<(), AllocError>
    ensures { OnOk result
        (string_bytes out.new ≡ string_bytes out.old ++ flat_map (call_line []) calls.now) }
{
    for call in calls {
        write_call_line(alloc, out, "", call)?;
    }
    Ok(())
}

fn write_count(alloc: Global, out: &mut String, count: &Count) -> Result<(), AllocError>
    ensures { OnOk result (string_bytes out.new ≡ string_bytes out.old ++ count_text count.now) }
{
    match count {
        Count::Int { value, .. } => out.push_str(format!(in alloc; "{value}")?.as_str()),
        Count::Param(name) => out.push_str(name.text.as_str()),
    }
}

/// Writes what the opening line of a unit says of its body.
fn write_body_kind(alloc: Global, out: &mut String, body: &Body) -> Result<(), AllocError>
    ensures { OnOk result (string_bytes out.new ≡ string_bytes out.old ++ body_kind body.now) }
{
    match body {
        Body::Sequential(_) => out.push_str("sequential"),
        Body::Independent(_) => out.push_str("independent"),
        Body::Priority(_) => out.push_str("priority"),
        Body::Conditional { .. } => out.push_str("conditional"),
        Body::Loop(_) => out.push_str("loop"),
        Body::Iterated { count, .. } => {
            out.push_str("iterated ")?;
            write_count(alloc, out, count)
        }
    }
}

fn write_else_line(
    alloc: Global,
    out: &mut String,
    otherwise: &Option<Call>,
) -> Result<(), AllocError>
    ensures { OnOk result (string_bytes out.new ≡ string_bytes out.old ++ else_line otherwise.now) }
{
    match otherwise {
        Some(call) => write_call_line(alloc, out, "else ", call),
        None => Ok(()),
    }
}

fn write_body_lines(alloc: Global, out: &mut String, body: &Body) -> Result<(), AllocError>
    ensures { OnOk result (string_bytes out.new ≡ string_bytes out.old ++ body_lines body.now) }
{
    match body {
        Body::Sequential(calls) | Body::Independent(calls) | Body::Priority(calls) => {
            write_call_lines(alloc, out, calls.as_slice())
        }
        Body::Conditional {
            test,
            then,
            otherwise,
        } => {
            write_call_line(alloc, out, "if ", test)?;
            write_call_line(alloc, out, "then ", then)?;
            write_else_line(alloc, out, otherwise)
        }
        Body::Loop(call) | Body::Iterated { call, .. } => write_call_line(alloc, out, "", call),
    }
}

/// Writes a unit.
pub fn write_unit(alloc: Global, out: &mut String, unit: &Unit) -> Result<(), AllocError>
    ensures { OnOk result (string_bytes out.new
        ≡ string_bytes out.old ++ definition_text (Definition.Unit unit.now)) }
{
    out.push_str("unit ")?;
    out.push_str(unit.name.text.as_str())?;
    write_params(out, unit.params.as_slice())?;
    out.push_str(" ")?;
    write_body_kind(alloc, out, &unit.body)?;
    out.push_str(" {\n")?;
    write_body_lines(alloc, out, &unit.body)?;
    out.push_str("}\n")
}
