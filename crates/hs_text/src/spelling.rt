//! How words, signs and values are written.

ghost use Rattle.std.specs.Prelude.{◌≡◌, ◌++◌, IfOk, OnOk, string_bytes, encode_utf8_all};
ghost use Rattle.std.specs.Char.{encode_utf8};
ghost use Rattle.std.specs.List.{flat_map};
ghost use Rattle.std.specs.Str.{chars};
ghost use Rattle.hs_text.specs.Canonical.{escape, quoted_text, sign_text, truth_text, direction_text, mark_text};

use crate::syntax::{Direction, Mark};
use hs_expr::{Sign, Text};
use std::alloc::{AllocError, Global};

pub fn truth_word(value: bool) -> &'static str
    ensures { result.now ≡ truth_text value }
{
    if value { "true" } else { "false" }
}

pub fn sign_word(sign: Sign) -> &'static str
    ensures { result.now ≡ sign_text sign }
{
    match sign {
        Sign::Or => "or",
        Sign::And => "and",
        Sign::Equal => "==",
        Sign::NotEqual => "!=",
        Sign::Less => "<",
        Sign::AtMost => "<=",
        Sign::Greater => ">",
        Sign::AtLeast => ">=",
        Sign::Plus => "+",
        Sign::Minus => "-",
        Sign::Times => "*",
    }
}

pub fn direction_word(direction: Direction) -> &'static str
    ensures { result.now ≡ direction_text direction }
{
    match direction {
        Direction::In => "in",
        Direction::Out => "out",
    }
}

pub fn mark_word(mark: Mark) -> &'static str
    ensures { result.now ≡ mark_text mark }
{
    match mark {
        Mark::Preserve => "preserve",
        Mark::Create => "create",
        Mark::Delete => "delete",
    }
}

/// The characters of a text.
#[tactic(auto, using(std::proofs::lemmas::Str::chars_from_encodes))]
pub fn characters(alloc: Global, text: &str) -> Result<Vec<char>, AllocError>
    ensures { IfOk result (λ v. v.items ≡ chars text.now) }
{
    text.chars().collect(alloc)
}

/// Writes a character of a text in quotes.
fn write_escaped(out: &mut String, c: char) -> Result<(), AllocError>
    ensures { OnOk result
        (string_bytes out.new ≡ string_bytes out.old ++ flat_map escape (encode_utf8 c)) }
{
    if c == '"' {
        return out.push_str("\\\"");
    }
    if c == '\\' {
        return out.push_str("\\\\");
    }
    if c == '\n' {
        return out.push_str("\\n");
    }
    if c == '\t' {
        return out.push_str("\\t");
    }
    out.push(c)
}

fn write_characters(out: &mut String, chars: &[char]) -> Result<(), AllocError>
    ensures { OnOk result (string_bytes out.new
        ≡ string_bytes out.old ++ flat_map escape (encode_utf8_all chars.now)) }
{
    for c in chars {
        write_escaped(out, *c)?;
    }
    Ok(())
}

/// The text in quotes, with its escapes.
pub fn quoted(alloc: Global, value: &Text) -> Result<Text, AllocError>
    ensures { IfOk result (λ text. text ≡ quoted_text value.now) }
{
    let chars = characters(alloc, value.as_str())?;
    let mut out = String::from_str(alloc, "\"")?;
    write_characters(&mut out, chars.as_slice())?;
    out.push_str("\"")?;
    Ok(Text::from_string(out))
}
