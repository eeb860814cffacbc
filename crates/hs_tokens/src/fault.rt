//! Faults of texts, with their words.

ghost use Rattle.std.specs.Prelude.{◌≡◌};
ghost use Rattle.hs_tokens.specs.FaultWords as spec;

/// What is wrong with a text.
#[derive(Clone, Copy, PartialEq, Eq, Debug)]
pub enum FaultKind {
    /// No token begins here.
    Character,
    /// An integer above 9,223,372,036,854,775,807.
    Number,
    /// The first token with which no text of the grammar continues.
    Order,
    /// The text ends before the grammar does.
    End,
}

impl FaultKind {
    /// The word by which it is printed.
    pub fn word(self) -> &'static str
        ensures { result.now ≡ spec.text_fault_word self }
    {
        match self {
            FaultKind::Character => "character",
            FaultKind::Number => "number",
            FaultKind::Order => "order",
            FaultKind::End => "end",
        }
    }
}

/// Why a text is not parsed: a fault at this line and this column, which count from 1; a column
/// counts characters.
#[derive(Clone, Copy, PartialEq, Eq, Debug)]
pub struct TextFault {
    pub line: usize,
    pub column: usize,
    pub kind: FaultKind,
}
