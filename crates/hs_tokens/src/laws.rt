//! What the definitions of tokens say together.

ghost use Rattle.std.specs.Prelude.{◌≡◌, ◌+◌, ◌==◌, ◌∷◌, ℕ, List, length, true};
ghost use Rattle.hs_expr.specs.Characters.{is_letter, is_digit};
ghost use Rattle.hs_tokens.specs.declared.token.Token.{Token};
ghost use Rattle.hs_tokens.specs.declared.token.Position.{Position};
ghost use Rattle.hs_tokens.specs.Lexing.{Ending, Lexes};
ghost use Rattle.hs_tokens.specs.Tokens.{after, is_integer, is_lexeme, is_text, is_word};

/// Characters are tokens up to an ending.
pub fn each_is_lexed()
    ensures { (p : Position) (cs : List ℕ) → (ts : List Token) × (e : Ending) × Lexes p cs ts e }
{}

/// Characters are these tokens and no others, up to one ending.
pub fn lexed_once()
    ensures { (p : Position) (cs : List ℕ) (ts us : List Token) (e g : Ending) → Lexes p cs ts e
        → Lexes p cs us g → (ts ≡ us) × (e ≡ g) }
{}

/// What a token is that begins with a letter, a digit or a quote: a word, an integer, a text.
pub fn lexemes_begin()
    ensures letter { (c : ℕ) (cs : List ℕ) → is_letter c ≡ true
        → is_lexeme (c ∷ cs) ≡ is_word (c ∷ cs) }
    ensures digit { (c : ℕ) (cs : List ℕ) → is_digit c ≡ true
        → is_lexeme (c ∷ cs) ≡ is_integer (c ∷ cs) }
    ensures quote { (c : ℕ) (cs : List ℕ) → (c == 34) ≡ true
        → is_lexeme (c ∷ cs) ≡ is_text (c ∷ cs) }
{}

/// A position moves on by as many characters as are read.
pub fn positions_move()
    ensures { (p : Position) (cs : List ℕ) → (after p cs).index ≡ p.index + length cs }
{}
