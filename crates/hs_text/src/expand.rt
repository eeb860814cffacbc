//! What each production is made of.

ghost use Rattle.std.specs.Prelude.{◌≡◌, ◌≤◌, ◌++◌, length, IfOk};
ghost use Rattle.hs_text.specs.Machine as spec;

use crate::grammar::Symbol::{Act, Keep, Skip, Sub};
use crate::grammar::{Action, Part, Production, Symbol, Term};
use hs_expr::Stack;
use hs_tokens::Kind;
use std::alloc::AllocError;

/// The right sides of the productions.
fn right_side(production: Production) -> &'static [Symbol]
    ensures symbols { result.now ≡ spec.right_side production }
    ensures few { length result.now ≤ 16 }
{
    match production {
        Production::TextMore => &[Sub(Part::Definition), Sub(Part::Text)],
        Production::TextEnd => &[],
        Production::RuleDefinition => &[
            Skip(Kind::Rule),
            Keep(Term::Just(Kind::Name)),
            Sub(Part::Params),
            Skip(Kind::LeftBrace),
            Sub(Part::Items),
            Skip(Kind::RightBrace),
            Act(Action::Rule),
        ],
        Production::UnitDefinition => &[
            Skip(Kind::Unit),
            Keep(Term::Just(Kind::Name)),
            Sub(Part::Params),
            Sub(Part::Body),
        ],
        Production::Params => &[
            Skip(Kind::LeftParen),
            Sub(Part::ParamList),
            Skip(Kind::RightParen),
        ],
        Production::ParamFirst => &[Sub(Part::Param), Sub(Part::ParamsTail)],
        Production::ParamNone => &[],
        Production::ParamNext => &[Skip(Kind::Comma), Sub(Part::Param), Sub(Part::ParamsTail)],
        Production::ParamLast => &[],
        Production::Param => &[
            Keep(Term::Direction),
            Keep(Term::Just(Kind::Name)),
            Skip(Kind::Colon),
            Keep(Term::Word),
            Act(Action::Param),
        ],
        Production::ItemMore => &[Sub(Part::Item), Sub(Part::Items)],
        Production::ItemEnd => &[],
        Production::ItemSimple => &[Sub(Part::Simple), Act(Action::Plain)],
        Production::ItemForbid => &[
            Skip(Kind::Forbid),
            Skip(Kind::LeftBrace),
            Sub(Part::Elements),
            Skip(Kind::RightBrace),
            Act(Action::Forbid),
        ],
        Production::ItemRequire => &[
            Skip(Kind::Require),
            Skip(Kind::LeftBrace),
            Sub(Part::Elements),
            Skip(Kind::RightBrace),
            Act(Action::Require),
        ],
        Production::ItemMulti => &[
            Skip(Kind::Multi),
            Skip(Kind::LeftBrace),
            Sub(Part::Simples),
            Skip(Kind::RightBrace),
            Act(Action::Multi),
        ],
        Production::ElementMore => &[
            Sub(Part::Element),
            Skip(Kind::Semicolon),
            Sub(Part::Elements),
        ],
        Production::ElementEnd => &[],
        Production::SimpleMore => &[Sub(Part::Simple), Sub(Part::Simples)],
        Production::SimpleEnd => &[],
        Production::SimpleElement => &[
            Keep(Term::Mark),
            Sub(Part::Element),
            Skip(Kind::Semicolon),
            Act(Action::Marked),
        ],
        Production::SimpleSet => &[
            Skip(Kind::Set),
            Keep(Term::Just(Kind::Name)),
            Skip(Kind::Dot),
            Keep(Term::Word),
            Skip(Kind::Assign),
            Sub(Part::Expr),
            Skip(Kind::Semicolon),
            Act(Action::Set),
        ],
        Production::SimpleWhere => &[
            Keep(Term::Just(Kind::Where)),
            Sub(Part::Expr),
            Skip(Kind::Semicolon),
            Act(Action::Where),
        ],
        Production::ElementNode => &[
            Skip(Kind::Node),
            Keep(Term::Just(Kind::Name)),
            Skip(Kind::Colon),
            Keep(Term::Word),
            Act(Action::Node),
        ],
        Production::ElementEdge => &[
            Skip(Kind::Edge),
            Keep(Term::Just(Kind::Name)),
            Skip(Kind::Arrow),
            Keep(Term::Just(Kind::Name)),
            Skip(Kind::Colon),
            Keep(Term::Word),
            Act(Action::Edge),
        ],
        Production::Expr => &[Sub(Part::Conj), Sub(Part::OrTail)],
        Production::OrMore => &[
            Keep(Term::Just(Kind::Or)),
            Sub(Part::Conj),
            Act(Action::Binary),
            Sub(Part::OrTail),
        ],
        Production::OrEnd => &[],
        Production::Conj => &[Sub(Part::Neg), Sub(Part::AndTail)],
        Production::AndMore => &[
            Keep(Term::Just(Kind::And)),
            Sub(Part::Neg),
            Act(Action::Binary),
            Sub(Part::AndTail),
        ],
        Production::AndEnd => &[],
        Production::NegNot => &[
            Keep(Term::Just(Kind::Not)),
            Sub(Part::Neg),
            Act(Action::Not),
        ],
        Production::NegCmp => &[Sub(Part::Cmp)],
        Production::Cmp => &[Sub(Part::Sum), Sub(Part::CmpTail)],
        Production::CmpMore => &[Keep(Term::Comparison), Sub(Part::Sum), Act(Action::Binary)],
        Production::CmpEnd => &[],
        Production::Sum => &[Sub(Part::Prod), Sub(Part::SumTail)],
        Production::SumMore => &[
            Keep(Term::Addition),
            Sub(Part::Prod),
            Act(Action::Binary),
            Sub(Part::SumTail),
        ],
        Production::SumEnd => &[],
        Production::Prod => &[Sub(Part::Fact), Sub(Part::ProdTail)],
        Production::ProdMore => &[
            Keep(Term::Just(Kind::Times)),
            Sub(Part::Fact),
            Act(Action::Binary),
            Sub(Part::ProdTail),
        ],
        Production::ProdEnd => &[],
        Production::FactLiteral => &[Keep(Term::Literal), Act(Action::Literal)],
        Production::FactName => &[Keep(Term::Just(Kind::Name)), Sub(Part::Slot)],
        Production::FactParens => &[
            Skip(Kind::LeftParen),
            Sub(Part::Expr),
            Skip(Kind::RightParen),
        ],
        Production::FactMinus => &[
            Keep(Term::Just(Kind::Minus)),
            Sub(Part::Fact),
            Act(Action::Minus),
        ],
        Production::SlotDot => &[Skip(Kind::Dot), Keep(Term::Word), Act(Action::Slot)],
        Production::SlotNone => &[Act(Action::Name)],
        Production::BodyListed => &[
            Keep(Term::Order),
            Skip(Kind::LeftBrace),
            Sub(Part::Calls),
            Skip(Kind::RightBrace),
            Act(Action::Listed),
        ],
        Production::BodyConditional => &[
            Skip(Kind::Conditional),
            Skip(Kind::LeftBrace),
            Skip(Kind::If),
            Sub(Part::Call),
            Skip(Kind::Semicolon),
            Skip(Kind::Then),
            Sub(Part::Call),
            Skip(Kind::Semicolon),
            Sub(Part::Else),
        ],
        Production::BodyLoop => &[
            Skip(Kind::Loop),
            Skip(Kind::LeftBrace),
            Sub(Part::Call),
            Skip(Kind::Semicolon),
            Skip(Kind::RightBrace),
            Act(Action::Loop),
        ],
        Production::BodyIterated => &[
            Skip(Kind::Iterated),
            Keep(Term::Count),
            Skip(Kind::LeftBrace),
            Sub(Part::Call),
            Skip(Kind::Semicolon),
            Skip(Kind::RightBrace),
            Act(Action::Iterated),
        ],
        Production::ElseSome => &[
            Skip(Kind::Else),
            Sub(Part::Call),
            Skip(Kind::Semicolon),
            Skip(Kind::RightBrace),
            Act(Action::IfElse),
        ],
        Production::ElseNone => &[Skip(Kind::RightBrace), Act(Action::If)],
        Production::CallMore => &[Sub(Part::Call), Skip(Kind::Semicolon), Sub(Part::Calls)],
        Production::CallEnd => &[],
        Production::Call => &[
            Keep(Term::Just(Kind::Name)),
            Skip(Kind::LeftParen),
            Sub(Part::BindList),
            Skip(Kind::RightParen),
            Act(Action::Call),
        ],
        Production::BindFirst => &[Sub(Part::Bind), Sub(Part::BindsTail)],
        Production::BindNone => &[],
        Production::BindNext => &[Skip(Kind::Comma), Sub(Part::Bind), Sub(Part::BindsTail)],
        Production::BindLast => &[],
        Production::Bind => &[Keep(Term::Just(Kind::Name)), Sub(Part::Bound)],
        Production::BoundValue => &[Skip(Kind::Assign), Sub(Part::Value)],
        Production::BoundVariable => &[
            Skip(Kind::Greater),
            Keep(Term::Just(Kind::Name)),
            Act(Action::Variable),
        ],
        Production::ValueAtom => &[Keep(Term::Atom), Act(Action::Atom)],
        Production::ValueMinus => &[
            Skip(Kind::Minus),
            Keep(Term::Just(Kind::Int)),
            Act(Action::MinusAtom),
        ],
    }
}

/// Puts what a production is made of on the stack.
pub fn expand(stack: &mut Stack<Symbol>, production: Production) -> Result<(), AllocError>
    ensures { IfOk result (λ _. stack.new ≡ spec.right_side production ++ stack.old) }
{
    let mut symbols = right_side(production);
    while let [rest @ .., symbol] = symbols {
        stack.push(*symbol)?;
        symbols = rest;
    }
    Ok(())
}
