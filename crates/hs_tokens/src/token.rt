//! Tokens and positions.

ghost use Rattle.std.specs.Prelude.{◌≡◌};

use crate::{FaultKind, TextFault};
use hs_expr::Span;

/// What a token is: a name, a literal, one of the reserved words or one of the signs.
#[derive(Clone, Copy, PartialEq, Eq, Debug)]
pub enum Kind {
    /// A word that is not reserved.
    Name,
    /// A decimal integer, without a sign.
    Int,
    /// A text in double quotes.
    Text,
    Rule,
    Unit,
    In,
    Out,
    Preserve,
    Create,
    Delete,
    Forbid,
    Require,
    Multi,
    Node,
    Edge,
    Set,
    Where,
    Sequential,
    Independent,
    Priority,
    Conditional,
    If,
    Then,
    Else,
    Loop,
    Iterated,
    And,
    Or,
    Not,
    True,
    False,
    IntWord,
    Bool,
    TextWord,
    LeftParen,
    RightParen,
    LeftBrace,
    RightBrace,
    Colon,
    Semicolon,
    Comma,
    Dot,
    Arrow,
    Assign,
    Equal,
    NotEqual,
    Less,
    AtMost,
    Greater,
    AtLeast,
    Plus,
    Minus,
    Times,
}

impl Kind {
    ghost use Rattle.hs_tokens.specs.Kinds.{code, same};

    fn code(self) -> u8
        ensures { result ≡ code self }
    {
        self as u8
    }

    /// Whether it is this kind.
    pub fn is(self, kind: Kind) -> bool
        ensures { result ≡ same self kind }
    {
        self.code() == kind.code()
    }
}

/// A token with its span in the text.
#[derive(Clone, Copy, Debug)]
pub struct Token {
    pub kind: Kind,
    /// The value of an integer, and 0 for any other token.
    pub number: i64,
    pub span: Span,
}

impl Token {
    /// A token of no text.
    pub const NONE: Token = Token {
        kind: Kind::Name,
        number: 0,
        span: Span {
            start: 0,
            end: 0,
            line: 0,
            column: 0,
        },
    };
}

/// A position in a text: how many characters are before it, and its line and column, which count
/// from 1.
#[derive(Clone, Copy, PartialEq, Eq, Debug)]
pub struct Position {
    pub index: usize,
    pub line: usize,
    pub column: usize,
}

impl Position {
    /// Where a text begins.
    pub const START: Position = Position {
        index: 0,
        line: 1,
        column: 1,
    };

    /// The fault of this kind at this position.
    pub fn fault(self, kind: FaultKind) -> TextFault
        ensures { result ≡ record { line = self.line; column = self.column; kind = kind } }
    {
        TextFault {
            line: self.line,
            column: self.column,
            kind,
        }
    }
}
