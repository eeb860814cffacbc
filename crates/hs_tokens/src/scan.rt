//! The scanner: the tokens of a text.

ghost use Rattle.std.specs.Prelude.{◌≡◌, ℕ, List, [], ◌∷◌, ◌==◌, ◌<◌, ◌≤◌, ◌^◌, ◌+◌, IsTrue, false, nat_eq, length, map, IfOk, IfErr, OnOk, ◌++◌, option_to_list, IfSome, MatchOption, MatchResult, pos};
ghost use Rattle.std.specs.List.{prefix_len};
ghost use Rattle.std.specs.Cmp.Lexicographic.{pointwise};
ghost use Rattle.hs_expr.specs.Characters.{is_letter, is_digit, is_word_part};
ghost use Rattle.hs_expr.specs.Failures.{IfFault};
ghost use Rattle.hs_tokens.specs.Tokens as spec;
ghost use Rattle.hs_tokens.specs.Tokens.{is_blank, is_escaped, is_in_line, signs, decimal, next, after, text_start};
ghost use Rattle.hs_tokens.specs.Lexing.{Lexes, Whole, IsTokenFault};
ghost use Rattle.hs_tokens.specs.Scanning.{closing_len, word_rest_len, word_kind, sign_at, slash_at, element_at, Advances, FaultIs};

use crate::{FaultKind, Kind, Position, TextFault, Token};
use hs_expr::{Failure, Span};
use std::alloc::{AllocError, Global};

/// What begins at a position.
#[derive(Clone, Copy)]
pub enum Element {
    /// This many characters that separate.
    Skipped(usize),
    /// An integer of this many digits.
    Integer(usize),
    /// A token of another kind.
    Lexeme { kind: Kind, len: usize },
    Unknown,
}

fn is_blank_char(c: char) -> bool
    ensures { result ≡ is_blank c }
{
    c == ' ' || c == '\t' || c == '\r' || c == '\n'
}

fn is_letter_char(c: char) -> bool
    ensures { result ≡ is_letter c }
{
    (c >= 'A' && c <= 'Z') || (c >= 'a' && c <= 'z') || c == '_'
}

fn is_digit_char(c: char) -> bool
    ensures { result ≡ is_digit c }
{
    c >= '0' && c <= '9'
}

fn is_word_part_char(c: char) -> bool
    ensures { result ≡ is_word_part c }
{
    is_letter_char(c) || is_digit_char(c)
}

fn is_escaped_char(c: char) -> bool
    ensures { result ≡ is_escaped c }
{
    c == '"' || c == '\\' || c == 'n' || c == 't'
}

fn is_in_line_char(c: char) -> bool
    ensures { result ≡ is_in_line c }
{
    c != '\n'
}

/// How many letters and digits are in front.
fn word_part_count(chars: &[char]) -> usize
    ensures within { result ≤ length chars.now }
    ensures count { result ≡ prefix_len is_word_part chars.now }
{
    chars.iter().take_while(|c| is_word_part_char(**c)).count()
}

/// How many letters and digits after its first letter belong to a word: no more are looked at,
/// however many follow.
#[tactic(auto, using(crate::proofs::Longest::run_within))]
fn word_rest_count(chars: &[char]) -> usize
    ensures within { result ≤ length chars.now }
    ensures count { result ≡ word_rest_len chars.now }
{
    word_part_count(&chars[..chars.len().min(63)])
}

fn digit_count(chars: &[char]) -> usize
    ensures within { result ≤ length chars.now }
    ensures count { result ≡ prefix_len is_digit chars.now }
{
    chars.iter().take_while(|c| is_digit_char(**c)).count()
}

/// How many characters are before the end of the line.
fn line_len(chars: &[char]) -> usize
    ensures within { result ≤ length chars.now }
    ensures count { result ≡ prefix_len is_in_line chars.now }
{
    chars.iter().take_while(|c| is_in_line_char(**c)).count()
}

fn spells(word: &[char], letters: &[u8]) -> bool
    ensures { result ≡ pointwise nat_eq letters.now word.now }
{
    if word.len() != letters.len() {
        return false;
    }
    for (i, letter) in letters.iter().enumerate() {
        if *letter as u32 != word[i] as u32 {
            return false;
        }
    }
    true
}

/// The length of the rest of an open text, up to and with its last quote.
fn text_len(chars: &[char]) -> Option<usize>
    ensures within { IfSome result (λ n. n ≤ length chars.now) }
    ensures len { result ≡ closing_len false chars.now }
{
    let mut escaped = false;
    for (i, c) in chars.iter().enumerate() {
        if escaped {
            if !is_escaped_char(*c) {
                return None;
            }
            escaped = false;
        } else if *c == '"' {
            return Some(i + 1);
        } else if *c == '\\' {
            escaped = true;
        } else if *c < ' ' {
            return None;
        }
    }
    None
}

const RESERVED_WORDS: [(&[u8], Kind); 31] = [
    (b"rule", Kind::Rule),
    (b"unit", Kind::Unit),
    (b"in", Kind::In),
    (b"out", Kind::Out),
    (b"int", Kind::IntWord),
    (b"bool", Kind::Bool),
    (b"text", Kind::TextWord),
    (b"preserve", Kind::Preserve),
    (b"create", Kind::Create),
    (b"delete", Kind::Delete),
    (b"forbid", Kind::Forbid),
    (b"require", Kind::Require),
    (b"multi", Kind::Multi),
    (b"node", Kind::Node),
    (b"edge", Kind::Edge),
    (b"set", Kind::Set),
    (b"where", Kind::Where),
    (b"sequential", Kind::Sequential),
    (b"independent", Kind::Independent),
    (b"priority", Kind::Priority),
    (b"conditional", Kind::Conditional),
    (b"if", Kind::If),
    (b"then", Kind::Then),
    (b"else", Kind::Else),
    (b"loop", Kind::Loop),
    (b"iterated", Kind::Iterated),
    (b"and", Kind::And),
    (b"or", Kind::Or),
    (b"not", Kind::Not),
    (b"true", Kind::True),
    (b"false", Kind::False),
];

const SIGNS: [(&[u8], Kind); 19] = [
    (b"(", Kind::LeftParen),
    (b")", Kind::RightParen),
    (b"{", Kind::LeftBrace),
    (b"}", Kind::RightBrace),
    (b":", Kind::Colon),
    (b";", Kind::Semicolon),
    (b",", Kind::Comma),
    (b".", Kind::Dot),
    (b"->", Kind::Arrow),
    (b"=", Kind::Assign),
    (b"==", Kind::Equal),
    (b"!=", Kind::NotEqual),
    (b"<", Kind::Less),
    (b"<=", Kind::AtMost),
    (b">", Kind::Greater),
    (b">=", Kind::AtLeast),
    (b"+", Kind::Plus),
    (b"-", Kind::Minus),
    (b"*", Kind::Times),
];

/// The kind beside a spelling in a table.
fn lookup(mut table: &[(&[u8], Kind)], chars: &[char]) -> Option<Kind>
    ensures { result ≡ spec.lookup (map (λ entry. (entry.0.now, entry.1)) table.entry.now)
        chars.now }
{
    while let [entry, rest @ ..] = table {
        if spells(chars, entry.0) {
            return Some(entry.1);
        }
        table = rest;
    }
    None
}

/// The kind of a word: that of a reserved word, or a name.
fn kind_of_word(word: &[char]) -> Kind
    ensures { result ≡ word_kind word.now }
{
    match lookup(&RESERVED_WORDS, word) {
        Some(kind) => kind,
        None => Kind::Name,
    }
}

fn sign(chars: &[char]) -> Option<Kind>
    ensures { result ≡ spec.lookup signs chars.now }
{
    lookup(&SIGNS, chars)
}

/// The sign in front, the longest one.
fn sign_element(chars: &[char]) -> Element
    requires { 0 < length chars.now }
    ensures { (c : ℕ) (cs : List ℕ) → chars.now ≡ c ∷ cs → result ≡ sign_at c cs }
{
    if chars.len() > 1 {
        if let Some(kind) = sign(&chars[..2]) {
            return Element::Lexeme { kind, len: 2 };
        }
    }
    match sign(&chars[..1]) {
        Some(kind) => Element::Lexeme { kind, len: 1 },
        None => Element::Unknown,
    }
}

/// What begins with the first character; the others follow it.
fn element_in_front(first: char, chars: &[char]) -> Element
    requires { (cs : List ℕ) × (chars.now ≡ first ∷ cs) }
    ensures { (cs : List ℕ) → chars.now ≡ first ∷ cs → result ≡ element_at first cs }
{
    let rest = &chars[1..];
    if is_blank_char(first) {
        return Element::Skipped(1);
    }
    if is_letter_char(first) {
        let len = 1 + word_rest_count(rest);
        return Element::Lexeme {
            kind: kind_of_word(&chars[..len]),
            len,
        };
    }
    if is_digit_char(first) {
        return Element::Integer(1 + digit_count(rest));
    }
    if first == '"' {
        return match text_len(rest) {
            Some(len) => Element::Lexeme {
                kind: Kind::Text,
                len: 1 + len,
            },
            None => Element::Unknown,
        };
    }
    if first == '/' {
        return slash_element(rest);
    }
    sign_element(chars)
}

/// A comment, if another slash follows the first one.
fn slash_element(rest: &[char]) -> Element
    ensures { result ≡ slash_at rest.now }
{
    match rest {
        ['/', line @ ..] => Element::Skipped(2 + line_len(line)),
        _ => Element::Unknown,
    }
}

const LIMIT: u64 = 9223372036854775808;

/// The number that digits denote, if it is below 2 ^ 63.
fn number(digits: &[char]) -> Option<i64>
    ensures { MatchOption result (2 ^ 63 ≤ decimal digits.now)
        (λ n. (n ≡ pos (decimal digits.now)) × (decimal digits.now < 2 ^ 63)) }
{
    let mut n: u64 = 0;
    for c in digits {
        let digit = (*c as u64).saturating_sub(48);
        if n > (LIMIT - 1 - digit) / 10 {
            return None;
        }
        n = 10 * n + digit;
    }
    Some(n as i64)
}

/// The position after the character at this one.
fn next_position(position: Position, c: char) -> Position
    requires index { position.index + 1 < 2 ^ 64 }
    requires line { position.line + 1 < 2 ^ 64 }
    requires column { position.column + 1 < 2 ^ 64 }
    ensures { result ≡ next position c }
{
    let index = position.index + 1;
    if c == '\n' {
        Position {
            index,
            line: position.line + 1,
            column: 1,
        }
    } else {
        Position {
            index,
            line: position.line,
            column: position.column + 1,
        }
    }
}

/// The position after some characters.
fn position_after(position: Position, chars: &[char]) -> Position
    requires index { position.index + length chars.now < 2 ^ 64 }
    requires line { position.line + length chars.now < 2 ^ 64 }
    requires column { position.column + length chars.now < 2 ^ 64 }
    ensures { result ≡ after position chars.now }
{
    let mut position = position;
    for c in chars {
        position = next_position(position, *c);
    }
    position
}

/// The token of this many characters, at this position.
fn make_token(position: Position, kind: Kind, number: i64, len: usize) -> Token
    requires { position.index + len < 2 ^ 64 }
    ensures { result ≡ record {
      kind = kind;
      number = number;
      span = record {
        start = position.index;
        end = position.index + len;
        line = position.line;
        column = position.column;
      };
    } }
{
    Token {
        kind,
        number,
        span: Span {
            start: position.index,
            end: position.index + len,
            line: position.line,
            column: position.column,
        },
    }
}

/// Reads what begins at a position: how many characters it takes, and the token that they are, if
/// they do not just separate.
fn read(position: Position, chars: &[char]) -> Result<(usize, Option<Token>), FaultKind>
    requires some { 0 < length chars.now }
    requires index { position.index + length chars.now < 2 ^ 64 }
    ensures ok { IfOk result (λ r. Advances position chars.now r.0 r.1) }
    ensures err { IfErr result (λ kind. FaultIs position kind chars.now) }
{
    match element_in_front(chars[0], chars) {
        Element::Skipped(len) => Ok((len, None)),
        Element::Integer(len) => match number(&chars[..len]) {
            Some(value) => Ok((len, Some(make_token(position, Kind::Int, value, len)))),
            None => Err(FaultKind::Number),
        },
        Element::Lexeme { kind, len } => Ok((len, Some(make_token(position, kind, 0, len)))),
        Element::Unknown => Err(FaultKind::Character),
    }
}

/// Puts the token at the end, where there is one.
fn keep(tokens: &mut Vec<Token>, found: Option<Token>) -> Result<(), AllocError>
    ensures { OnOk result (tokens.new.items ≡ tokens.old.items ++ option_to_list found) }
{
    match found {
        Some(token) => {
            tokens.push(token)?;
            Ok(())
        }
        None => Ok(()),
    }
}

/// The tokens of a text, and the position where it ends.
#[derive(Debug, Drop)]
pub struct Scanned {
    pub tokens: Vec<Token>,
    pub end: Position,
}

/// Reads a text as tokens, up to the first wrong one.
pub fn tokenize(alloc: Global, chars: &[char]) -> Result<Scanned, Failure<TextFault>>
    ensures ok { IfOk result (λ s. Lexes text_start chars.now s.tokens.items Whole) }
    ensures end { IfOk result (λ s. s.end ≡ after text_start chars.now) }
    ensures err { IfErr result (IfFault (IsTokenFault chars.now)) }
{
    let mut tokens = Vec::new(alloc);
    let mut position = Position::START;
    while position.index < chars.len() {
        let rest = &chars[position.index..];
        match read(position, rest) {
            Ok((len, found)) => {
                keep(&mut tokens, found)?;
                position = position_after(position, &rest[..len]);
            }
            Err(kind) => return Err(Failure::Fault(position.fault(kind))),
        }
    }
    Ok(Scanned {
        tokens,
        end: position,
    })
}
