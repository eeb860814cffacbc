//! Rule and unit text as syntax: [`parse`] gives the syntax of a text, or its first fault, and
//! [`print`] the canonical text of a syntax, which is read back as the same syntax.
//!
//! The tokens come from hs_tokens. They are read by an LL(1) table of productions over a stack of
//! what the rest of the text is made of ([`grammar`], [`table`], [`expand`], [`parser`]), and
//! syntax is made as they are taken ([`builder`], [`words`]); so no text, however deep, overruns
//! the machine's stack. `specs/Grammar.antt` defines what a text is.
//!
//! A syntax is written part by part ([`printing`], [`unit_printing`], [`spelling`]), an expression
//! from its last piece to its first ([`arranging`]). `specs/Canonical.antt` defines the canonical
//! text, and
//! `specs/WellFormed.antt` what every syntax is.
#![tactic(auto)]

ghost use Rattle.std.specs.Prelude.{◌≡◌, IfOk, IfErr, true};
ghost use Rattle.std.specs.Str.{chars, all_scalars};
ghost use Rattle.hs_expr.specs.Failures.{IfFault};
ghost use Rattle.hs_text.specs.Parsing.{IsSyntaxOf, IsTextFault};

use hs_expr::Failure;
use hs_tokens::{positions_move, tokenize};
use spelling::characters;
use std::alloc::Global;

mod arranging;
mod builder;
mod expand;
mod grammar;
mod laws;
mod parser;
mod printing;
mod spelling;
mod syntax;
mod table;
mod unit_printing;
mod words;

pub use hs_tokens::{FaultKind, TextFault};
pub use laws::{each_is_judged, judged_once, one_syntax, printed_is_read_back, read_once};
pub use printing::print;
pub use syntax::{
    Atom, Bind, Body, Call, Count, Definition, Direction, Element, Item, Mark, Param, Rule, Simple,
    Syntax, Unit,
};

/// The syntax of a rule and unit text, or its first fault: the first token that is wrong, and else
/// the first token after which the tokens begin no text of the grammar, or an early end.
pub fn parse(alloc: Global, text: &str) -> Result<Syntax, Failure<TextFault>>
    ensures ok { IfOk result (IsSyntaxOf (chars text.now)) }
    ensures err { IfErr result (IfFault (IsTextFault (chars text.now))) }
{
    let source = characters(alloc, text)?;
    parse_chars(alloc, source.as_slice())
}

fn parse_chars(alloc: Global, source: &[char]) -> Result<Syntax, Failure<TextFault>>
    requires { all_scalars source.now ≡ true }
    ensures ok { IfOk result (IsSyntaxOf source.now) }
    ensures err { IfErr result (IfFault (IsTextFault source.now)) }
{
    positions_move();
    match tokenize(alloc, source) {
        Ok(scanned) => match parser::read(alloc, source, &scanned) {
            Ok(definitions) => Ok(Syntax { definitions }),
            Err(fault) => Err(fault),
        },
        Err(fault) => Err(fault),
    }
}
