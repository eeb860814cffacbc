//! A parser by a stack of what the rest of a text is made of, so that no text overruns the
//! machine's.

ghost use Rattle.std.specs.Prelude.{◌≡◌, IfOk, IfErr};
ghost use Rattle.std.specs.Bool.{OnTrue, OnFalse};
ghost use Rattle.hs_text.specs.declared.grammar.Term.TheVariants as term;
ghost use Rattle.hs_text.specs.Building.{with_token};
ghost use Rattle.hs_text.specs.Terms.{matches};
ghost use Rattle.hs_text.specs.Grammar.{IsText};
ghost use Rattle.hs_expr.specs.Failures.{IfFault};
ghost use Rattle.hs_text.specs.Parsing.{IsGrammarFault};
ghost use Rattle.hs_text.specs.Machine.{Fine, TakesToken, RefusesToken, IsEnd, IsCutOff};

use crate::builder::Builder;
use crate::expand::expand;
use crate::grammar::{Part, Symbol, Term};
use crate::syntax::Definition;
use crate::table::{empty, production};
use hs_expr::{Failure, List, Stack};
use hs_tokens::{FaultKind, Kind, Scanned, TextFault, Token};
use std::alloc::{AllocError, Global};
use std::mem;

/// Whether a token of this kind may be where the grammar has this term.
fn may_stand(term: Term, kind: Kind) -> bool
    ensures { result ≡ matches term kind }
{
    match term {
        Term::Just(wanted) => wanted.is(kind),
        Term::Word => is_word(kind),
        Term::Direction => is_direction(kind),
        Term::Mark => is_mark(kind),
        Term::Comparison => is_comparison(kind),
        Term::Addition => is_addition(kind),
        Term::Literal => is_literal(kind),
        Term::Order => is_order(kind),
        Term::Count => is_count(kind),
        Term::Atom => is_atom(kind),
    }
}

fn is_word(kind: Kind) -> bool
    ensures { result ≡ matches term.Word kind }
{
    matches!(
        kind,
        Kind::Name
            | Kind::Rule
            | Kind::Unit
            | Kind::In
            | Kind::Out
            | Kind::Preserve
            | Kind::Create
            | Kind::Delete
            | Kind::Forbid
            | Kind::Require
            | Kind::Multi
            | Kind::Node
            | Kind::Edge
            | Kind::Set
            | Kind::Where
            | Kind::Sequential
            | Kind::Independent
            | Kind::Priority
            | Kind::Conditional
            | Kind::If
            | Kind::Then
            | Kind::Else
            | Kind::Loop
            | Kind::Iterated
            | Kind::And
            | Kind::Or
            | Kind::Not
            | Kind::True
            | Kind::False
            | Kind::IntWord
            | Kind::Bool
            | Kind::TextWord
    )
}

fn is_direction(kind: Kind) -> bool
    ensures { result ≡ matches term.Direction kind }
{
    matches!(kind, Kind::In | Kind::Out)
}

fn is_mark(kind: Kind) -> bool
    ensures { result ≡ matches term.Mark kind }
{
    matches!(kind, Kind::Preserve | Kind::Create | Kind::Delete)
}

fn is_comparison(kind: Kind) -> bool
    ensures { result ≡ matches term.Comparison kind }
{
    matches!(
        kind,
        Kind::Equal | Kind::NotEqual | Kind::Less | Kind::AtMost | Kind::Greater | Kind::AtLeast
    )
}

fn is_addition(kind: Kind) -> bool
    ensures { result ≡ matches term.Addition kind }
{
    matches!(kind, Kind::Plus | Kind::Minus)
}

fn is_literal(kind: Kind) -> bool
    ensures { result ≡ matches term.Literal kind }
{
    matches!(kind, Kind::Int | Kind::Text | Kind::True | Kind::False)
}

fn is_order(kind: Kind) -> bool
    ensures { result ≡ matches term.Order kind }
{
    matches!(kind, Kind::Sequential | Kind::Independent | Kind::Priority)
}

fn is_count(kind: Kind) -> bool
    ensures { result ≡ matches term.Count kind }
{
    matches!(kind, Kind::Int | Kind::Name)
}

fn is_atom(kind: Kind) -> bool
    ensures { result ≡ matches term.Atom kind }
{
    matches!(
        kind,
        Kind::Int | Kind::Text | Kind::True | Kind::False | Kind::Name
    )
}

/// Takes the token, if a text of the symbols on the stack begins with it.
fn take(
    alloc: Global,
    source: &[char],
    stack: &mut Stack<Symbol>,
    builder: &mut Builder,
    token: Token,
) -> Result<bool, AllocError>
    requires { Fine stack.old }
    ensures taken { IfOk result
        (λ b. OnTrue b (TakesToken source.now stack.old builder.old token stack.new builder.new)) }
    ensures refused { IfOk result
        (λ b. OnFalse b (RefusesToken source.now stack.old builder.old token)) }
{
    'steps: while let Some(symbol) = stack.pop() {
        match symbol {
            Symbol::Skip(kind) => return Ok(kind.is(token.kind)),
            Symbol::Keep(term) => {
                let kept = keep(builder, term, token)?;
                return Ok(kept);
            }
            Symbol::Act(action) => builder.act(alloc, source, action)?,
            Symbol::Sub(part) => match production(part, token.kind) {
                Some(production) => expand(stack, production)?,
                None => return Ok(false),
            },
        }
    }
    Ok(false)
}

/// Keeps the token, if it may be there.
fn keep(builder: &mut Builder, term: Term, token: Token) -> Result<bool, AllocError>
    ensures may { IfOk result (λ b. b ≡ matches term token.kind) }
    ensures held { IfOk result (λ b. OnTrue b (builder.new ≡ with_token token builder.old)) }
{
    if !may_stand(term, token.kind) {
        return Ok(false);
    }
    builder.hold(token)?;
    Ok(true)
}

/// Whether the text may end here; what is left on the stack is done.
fn finish(
    alloc: Global,
    source: &[char],
    stack: &mut Stack<Symbol>,
    builder: &mut Builder,
) -> Result<bool, AllocError>
    ensures ended { IfOk result
        (λ b. OnTrue b (IsEnd source.now stack.old builder.old builder.new)) }
    ensures cut_off { IfOk result (λ b. OnFalse b (IsCutOff source.now stack.old builder.old)) }
{
    'steps: while let Some(symbol) = stack.pop() {
        match symbol {
            Symbol::Skip(_) => return Ok(false),
            Symbol::Keep(_) => return Ok(false),
            Symbol::Act(action) => builder.act(alloc, source, action)?,
            Symbol::Sub(part) => match empty(part) {
                Some(production) => expand(stack, production)?,
                None => return Ok(false),
            },
        }
    }
    Ok(true)
}

/// The definitions of the tokens of a text, or the first fault of the grammar.
pub fn read(
    alloc: Global,
    source: &[char],
    scanned: &Scanned,
) -> Result<List<Definition>, Failure<TextFault>>
    ensures ok { IfOk result (IsText source.now scanned.now.tokens.items) }
    ensures err { IfErr result
        (IfFault (IsGrammarFault source.now scanned.now.tokens.items scanned.now.end)) }
{
    let mut builder = Builder::new(alloc);
    let mut stack = Stack::new(alloc);
    stack.push(Symbol::Sub(Part::Text))?;
    for token in scanned.tokens.as_slice() {
        if !take(alloc, source, &mut stack, &mut builder, *token)? {
            return Err(Failure::Fault(token_fault(*token)));
        }
    }
    if !finish(alloc, source, &mut stack, &mut builder)? {
        return Err(Failure::Fault(scanned.end.fault(FaultKind::End)));
    }
    Ok(mem::replace(&mut builder.definitions, List::new(alloc)))
}

/// The fault at a token that continues no text of the grammar.
fn token_fault(token: Token) -> TextFault
    ensures { result ≡ record {
      line = token.span.line;
      column = token.span.column;
      kind = FaultKind.Order;
    } }
{
    TextFault {
        line: token.span.line,
        column: token.span.column,
        kind: FaultKind::Order,
    }
}
