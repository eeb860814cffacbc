//! What the definitions of the grammar say together.

ghost use Rattle.std.specs.Prelude.{◌≡◌, ◌⊎◌, ℕ, List};
ghost use Rattle.hs_tokens.specs.declared.fault.TextFault.{TextFault};
ghost use Rattle.hs_tokens.specs.declared.token.Token.{Token};
ghost use Rattle.hs_text.specs.declared.syntax.Definition.{Definition};
ghost use Rattle.hs_text.specs.Grammar.{IsText};
ghost use Rattle.std.specs.Str.{chars};
ghost use Rattle.hs_text.specs.declared.syntax.Syntax.{Syntax};
ghost use Rattle.hs_text.specs.Parsing.{IsSyntaxOf, IsFirstWrong, IsTextFault, IsUnfinished};
ghost use Rattle.hs_text.specs.Canonical.{canonical_text};
ghost use Rattle.hs_text.specs.Unplaced.{unplaced};

use hs_tokens::{lexed_once, lexemes_begin, positions_move};

/// Tokens are the text of one syntax at most.
pub fn one_syntax()
    ensures { (source : List ℕ) (ts : List Token) (ds es : List Definition) → IsText source ts ds
        → IsText source ts es → ds ≡ es }
{}

/// Tokens are a text, or the unfinished beginning of one, or have a first wrong token.
pub fn each_is_judged()
    ensures { (source : List ℕ) (ts : List Token) → ((ds : List Definition) × IsText source ts ds)
        ⊎ IsUnfinished source ts ⊎ ((t : Token) × IsFirstWrong source ts t) }
{}

/// No two of these hold of the same tokens.
pub fn judged_once()
    ensures text_ends { (source : List ℕ) (ts : List Token) (ds : List Definition)
        → IsText source ts ds → IsUnfinished source ts → ⊥ }
    ensures text_is_right { (source : List ℕ) (ts : List Token) (ds : List Definition) (t : Token)
        → IsText source ts ds → IsFirstWrong source ts t → ⊥ }
    ensures unfinished_is_right { (source : List ℕ) (ts : List Token) (t : Token)
        → IsUnfinished source ts → IsFirstWrong source ts t → ⊥ }
{}

/// What is printed is read back as the same syntax, but for spans; so printing what was read gives
/// the printed text again.
pub fn printed_is_read_back()
    ensures reads { (s : Syntax)
        → (t : Syntax) × IsSyntaxOf (chars (canonical_text s.definitions)) t }
    ensures same { (s t : Syntax) → IsSyntaxOf (chars (canonical_text s.definitions)) t
        → unplaced t.definitions ≡ unplaced s.definitions }
    ensures again { (s t : Syntax) → IsSyntaxOf (chars (canonical_text s.definitions)) t
        → canonical_text t.definitions ≡ canonical_text s.definitions }
{
    lexed_once();
    lexemes_begin();
    positions_move();
}

/// Characters have the definitions of one syntax at most, one first fault at most, and never both.
pub fn read_once()
    ensures syntax { (source : List ℕ) (s t : Syntax) → IsSyntaxOf source s → IsSyntaxOf source t
        → s.definitions ≡ t.definitions }
    ensures fault { (source : List ℕ) (f g : TextFault) → IsTextFault source f
        → IsTextFault source g → f ≡ g }
    ensures never_both { (source : List ℕ) (s : Syntax) (f : TextFault) → IsSyntaxOf source s
        → IsTextFault source f → ⊥ }
{
    lexed_once();
}
