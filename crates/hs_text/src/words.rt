//! What the tokens of a text denote.

ghost use Rattle.std.specs.Prelude.{◌≡◌, ℕ, false, IfOk, drop, encode_utf8_all, string_bytes};
ghost use Rattle.hs_text.specs.Words as spec;
ghost use Rattle.hs_text.specs.Words.{slice, name_of, content, text_in, direction_of, mark_of, sign_of, is_true, literal_of, atom_of, count_of, list_body};

use crate::syntax::{Atom, Body, Call, Count, Direction, Mark};
use hs_expr::{List, Name, Piece, Sign, Span, Text};
use hs_tokens::{Kind, Token};
use std::alloc::{AllocError, Global};

/// The characters of a span.
fn part(source: &[char], span: Span) -> &[char]
    ensures { result.now ≡ slice source.now span }
{
    if span.start > source.len() {
        return &source[source.len()..];
    }
    let rest = &source[span.start..];
    let len = span.end.saturating_sub(span.start).min(rest.len());
    &rest[..len]
}

/// The name that a word is.
pub fn name(alloc: Global, source: &[char], token: Token) -> Result<Name, AllocError>
    ensures { IfOk result (λ n. n ≡ name_of source.now token) }
{
    let text: String = part(source, token.span).iter().copied().collect(alloc)?;
    Ok(Name {
        text: Text::from_string(text),
        span: token.span,
    })
}

fn escape_value(c: char) -> char
    ensures { result ≡ spec.escape_value c }
{
    match c {
        'n' => '\n',
        't' => '\t',
        _ => c,
    }
}

/// The text that follows the first quote, without its escapes.
fn text_content(alloc: Global, chars: &[char]) -> Result<String, AllocError>
    ensures { IfOk result (λ s. string_bytes s ≡ encode_utf8_all (content false chars.now)) }
{
    let mut text = String::new(alloc);
    let mut escaped = false;
    for c in chars {
        if escaped {
            text.push(escape_value(*c))?;
            escaped = false;
        } else if *c == '"' {
            return Ok(text);
        } else if *c == '\\' {
            escaped = true;
        } else {
            text.push(*c)?;
        }
    }
    Ok(text)
}

/// The text that a token in quotes means.
pub fn text(alloc: Global, source: &[char], token: Token) -> Result<Text, AllocError>
    ensures { IfOk result (λ t. t ≡ text_in source.now token) }
{
    let chars = part(source, token.span);
    let chars = if chars.is_empty() { chars } else { &chars[1..] };
    Ok(Text::from_string(text_content(alloc, chars)?))
}

pub fn direction(kind: Kind) -> Direction
    ensures { result ≡ direction_of kind }
{
    match kind {
        Kind::Out => Direction::Out,
        _ => Direction::In,
    }
}

pub fn mark(kind: Kind) -> Mark
    ensures { result ≡ mark_of kind }
{
    match kind {
        Kind::Create => Mark::Create,
        Kind::Delete => Mark::Delete,
        _ => Mark::Preserve,
    }
}

pub fn sign(kind: Kind) -> Sign
    ensures { result ≡ sign_of kind }
{
    match kind {
        Kind::And => Sign::And,
        Kind::Equal => Sign::Equal,
        Kind::NotEqual => Sign::NotEqual,
        Kind::Less => Sign::Less,
        Kind::AtMost => Sign::AtMost,
        Kind::Greater => Sign::Greater,
        Kind::AtLeast => Sign::AtLeast,
        Kind::Plus => Sign::Plus,
        Kind::Minus => Sign::Minus,
        Kind::Times => Sign::Times,
        _ => Sign::Or,
    }
}

fn truth(kind: Kind) -> bool
    ensures { result ≡ is_true kind }
{
    matches!(kind, Kind::True)
}

/// The part of an expression that a literal is.
pub fn literal(alloc: Global, source: &[char], token: Token) -> Result<Piece, AllocError>
    ensures { IfOk result (λ p. p ≡ literal_of source.now token) }
{
    let span = token.span;
    match token.kind {
        Kind::Int => Ok(Piece::Int {
            value: token.number,
            span,
        }),
        Kind::Text => {
            let value = text(alloc, source, token)?;
            Ok(Piece::Text { value, span })
        }
        _ => Ok(Piece::Bool {
            value: truth(token.kind),
            span,
        }),
    }
}

/// The value that a token is in a call.
pub fn atom(alloc: Global, source: &[char], token: Token) -> Result<Atom, AllocError>
    ensures { IfOk result (λ a. a ≡ atom_of source.now token) }
{
    let span = token.span;
    match token.kind {
        Kind::Int => Ok(Atom::Int {
            minus: false,
            value: token.number,
            span,
        }),
        Kind::Text => {
            let value = text(alloc, source, token)?;
            Ok(Atom::Text { value, span })
        }
        Kind::Name => Ok(Atom::Name(name(alloc, source, token)?)),
        _ => Ok(Atom::Bool {
            value: truth(token.kind),
            span,
        }),
    }
}

pub fn count(alloc: Global, source: &[char], token: Token) -> Result<Count, AllocError>
    ensures { IfOk result (λ c. c ≡ count_of source.now token) }
{
    match token.kind {
        Kind::Int => Ok(Count::Int {
            value: token.number,
            span: token.span,
        }),
        _ => Ok(Count::Param(name(alloc, source, token)?)),
    }
}

/// The body that has its calls in a list.
pub fn listed(kind: Kind, calls: List<Call>) -> Body
    ensures { result ≡ list_body kind calls }
{
    match kind {
        Kind::Independent => Body::Independent(calls),
        Kind::Priority => Body::Priority(calls),
        _ => Body::Sequential(calls),
    }
}
