//! Which production a part goes by at a token.

ghost use Rattle.std.specs.Prelude.{◌≡◌};
ghost use Rattle.hs_text.specs.declared.grammar.Part.TheVariants as part;
ghost use Rattle.hs_text.specs.Machine.{choice_of, empty_of, production_of};

use crate::grammar::{Part, Production};
use hs_tokens::Kind;

fn choice_text(kind: Kind) -> Option<Production>
    ensures { result ≡ choice_of part.Text kind }
{
    match kind {
        Kind::Rule | Kind::Unit => Some(Production::TextMore),
        _ => None,
    }
}

fn choice_definition(kind: Kind) -> Option<Production>
    ensures { result ≡ choice_of part.Definition kind }
{
    match kind {
        Kind::Rule => Some(Production::RuleDefinition),
        Kind::Unit => Some(Production::UnitDefinition),
        _ => None,
    }
}

fn choice_params(kind: Kind) -> Option<Production>
    ensures { result ≡ choice_of part.Params kind }
{
    match kind {
        Kind::LeftParen => Some(Production::Params),
        _ => None,
    }
}

fn choice_param_list(kind: Kind) -> Option<Production>
    ensures { result ≡ choice_of part.ParamList kind }
{
    match kind {
        Kind::In | Kind::Out => Some(Production::ParamFirst),
        _ => None,
    }
}

fn choice_params_tail(kind: Kind) -> Option<Production>
    ensures { result ≡ choice_of part.ParamsTail kind }
{
    match kind {
        Kind::Comma => Some(Production::ParamNext),
        _ => None,
    }
}

fn choice_param(kind: Kind) -> Option<Production>
    ensures { result ≡ choice_of part.Param kind }
{
    match kind {
        Kind::In | Kind::Out => Some(Production::Param),
        _ => None,
    }
}

fn choice_items(kind: Kind) -> Option<Production>
    ensures { result ≡ choice_of part.Items kind }
{
    match kind {
        Kind::Preserve
        | Kind::Create
        | Kind::Delete
        | Kind::Forbid
        | Kind::Require
        | Kind::Multi
        | Kind::Set
        | Kind::Where => Some(Production::ItemMore),
        _ => None,
    }
}

fn choice_item(kind: Kind) -> Option<Production>
    ensures { result ≡ choice_of part.Item kind }
{
    match kind {
        Kind::Preserve | Kind::Create | Kind::Delete | Kind::Set | Kind::Where => Some(
            Production::ItemSimple,
        ),
        Kind::Forbid => Some(Production::ItemForbid),
        Kind::Require => Some(Production::ItemRequire),
        Kind::Multi => Some(Production::ItemMulti),
        _ => None,
    }
}

fn choice_elements(kind: Kind) -> Option<Production>
    ensures { result ≡ choice_of part.Elements kind }
{
    match kind {
        Kind::Node | Kind::Edge => Some(Production::ElementMore),
        _ => None,
    }
}

fn choice_simples(kind: Kind) -> Option<Production>
    ensures { result ≡ choice_of part.Simples kind }
{
    match kind {
        Kind::Preserve | Kind::Create | Kind::Delete | Kind::Set | Kind::Where => Some(
            Production::SimpleMore,
        ),
        _ => None,
    }
}

fn choice_simple(kind: Kind) -> Option<Production>
    ensures { result ≡ choice_of part.Simple kind }
{
    match kind {
        Kind::Preserve | Kind::Create | Kind::Delete => Some(Production::SimpleElement),
        Kind::Set => Some(Production::SimpleSet),
        Kind::Where => Some(Production::SimpleWhere),
        _ => None,
    }
}

fn choice_element(kind: Kind) -> Option<Production>
    ensures { result ≡ choice_of part.Element kind }
{
    match kind {
        Kind::Node => Some(Production::ElementNode),
        Kind::Edge => Some(Production::ElementEdge),
        _ => None,
    }
}

fn choice_expr(kind: Kind) -> Option<Production>
    ensures { result ≡ choice_of part.Expr kind }
{
    match kind {
        Kind::Name
        | Kind::Int
        | Kind::Text
        | Kind::Not
        | Kind::True
        | Kind::False
        | Kind::LeftParen
        | Kind::Minus => Some(Production::Expr),
        _ => None,
    }
}

fn choice_or_tail(kind: Kind) -> Option<Production>
    ensures { result ≡ choice_of part.OrTail kind }
{
    match kind {
        Kind::Or => Some(Production::OrMore),
        _ => None,
    }
}

fn choice_conj(kind: Kind) -> Option<Production>
    ensures { result ≡ choice_of part.Conj kind }
{
    match kind {
        Kind::Name
        | Kind::Int
        | Kind::Text
        | Kind::Not
        | Kind::True
        | Kind::False
        | Kind::LeftParen
        | Kind::Minus => Some(Production::Conj),
        _ => None,
    }
}

fn choice_and_tail(kind: Kind) -> Option<Production>
    ensures { result ≡ choice_of part.AndTail kind }
{
    match kind {
        Kind::And => Some(Production::AndMore),
        _ => None,
    }
}

fn choice_neg(kind: Kind) -> Option<Production>
    ensures { result ≡ choice_of part.Neg kind }
{
    match kind {
        Kind::Not => Some(Production::NegNot),
        Kind::Name
        | Kind::Int
        | Kind::Text
        | Kind::True
        | Kind::False
        | Kind::LeftParen
        | Kind::Minus => Some(Production::NegCmp),
        _ => None,
    }
}

fn choice_cmp(kind: Kind) -> Option<Production>
    ensures { result ≡ choice_of part.Cmp kind }
{
    match kind {
        Kind::Name
        | Kind::Int
        | Kind::Text
        | Kind::True
        | Kind::False
        | Kind::LeftParen
        | Kind::Minus => Some(Production::Cmp),
        _ => None,
    }
}

fn choice_cmp_tail(kind: Kind) -> Option<Production>
    ensures { result ≡ choice_of part.CmpTail kind }
{
    match kind {
        Kind::Equal | Kind::NotEqual | Kind::Less | Kind::AtMost | Kind::Greater | Kind::AtLeast =>
            Some(Production::CmpMore),
        _ => None,
    }
}

fn choice_sum(kind: Kind) -> Option<Production>
    ensures { result ≡ choice_of part.Sum kind }
{
    match kind {
        Kind::Name
        | Kind::Int
        | Kind::Text
        | Kind::True
        | Kind::False
        | Kind::LeftParen
        | Kind::Minus => Some(Production::Sum),
        _ => None,
    }
}

fn choice_sum_tail(kind: Kind) -> Option<Production>
    ensures { result ≡ choice_of part.SumTail kind }
{
    match kind {
        Kind::Plus | Kind::Minus => Some(Production::SumMore),
        _ => None,
    }
}

fn choice_prod(kind: Kind) -> Option<Production>
    ensures { result ≡ choice_of part.Prod kind }
{
    match kind {
        Kind::Name
        | Kind::Int
        | Kind::Text
        | Kind::True
        | Kind::False
        | Kind::LeftParen
        | Kind::Minus => Some(Production::Prod),
        _ => None,
    }
}

fn choice_prod_tail(kind: Kind) -> Option<Production>
    ensures { result ≡ choice_of part.ProdTail kind }
{
    match kind {
        Kind::Times => Some(Production::ProdMore),
        _ => None,
    }
}

fn choice_fact(kind: Kind) -> Option<Production>
    ensures { result ≡ choice_of part.Fact kind }
{
    match kind {
        Kind::Int | Kind::Text | Kind::True | Kind::False => Some(Production::FactLiteral),
        Kind::Name => Some(Production::FactName),
        Kind::LeftParen => Some(Production::FactParens),
        Kind::Minus => Some(Production::FactMinus),
        _ => None,
    }
}

fn choice_slot(kind: Kind) -> Option<Production>
    ensures { result ≡ choice_of part.Slot kind }
{
    match kind {
        Kind::Dot => Some(Production::SlotDot),
        _ => None,
    }
}

fn choice_body(kind: Kind) -> Option<Production>
    ensures { result ≡ choice_of part.Body kind }
{
    match kind {
        Kind::Sequential | Kind::Independent | Kind::Priority => Some(Production::BodyListed),
        Kind::Conditional => Some(Production::BodyConditional),
        Kind::Loop => Some(Production::BodyLoop),
        Kind::Iterated => Some(Production::BodyIterated),
        _ => None,
    }
}

fn choice_else(kind: Kind) -> Option<Production>
    ensures { result ≡ choice_of part.Else kind }
{
    match kind {
        Kind::Else => Some(Production::ElseSome),
        Kind::RightBrace => Some(Production::ElseNone),
        _ => None,
    }
}

fn choice_calls(kind: Kind) -> Option<Production>
    ensures { result ≡ choice_of part.Calls kind }
{
    match kind {
        Kind::Name => Some(Production::CallMore),
        _ => None,
    }
}

fn choice_call(kind: Kind) -> Option<Production>
    ensures { result ≡ choice_of part.Call kind }
{
    match kind {
        Kind::Name => Some(Production::Call),
        _ => None,
    }
}

fn choice_bind_list(kind: Kind) -> Option<Production>
    ensures { result ≡ choice_of part.BindList kind }
{
    match kind {
        Kind::Name => Some(Production::BindFirst),
        _ => None,
    }
}

fn choice_binds_tail(kind: Kind) -> Option<Production>
    ensures { result ≡ choice_of part.BindsTail kind }
{
    match kind {
        Kind::Comma => Some(Production::BindNext),
        _ => None,
    }
}

fn choice_bind(kind: Kind) -> Option<Production>
    ensures { result ≡ choice_of part.Bind kind }
{
    match kind {
        Kind::Name => Some(Production::Bind),
        _ => None,
    }
}

fn choice_bound(kind: Kind) -> Option<Production>
    ensures { result ≡ choice_of part.Bound kind }
{
    match kind {
        Kind::Assign => Some(Production::BoundValue),
        Kind::Greater => Some(Production::BoundVariable),
        _ => None,
    }
}

fn choice_value(kind: Kind) -> Option<Production>
    ensures { result ≡ choice_of part.Value kind }
{
    match kind {
        Kind::Name | Kind::Int | Kind::Text | Kind::True | Kind::False => Some(
            Production::ValueAtom,
        ),
        Kind::Minus => Some(Production::ValueMinus),
        _ => None,
    }
}

fn choice(part: Part, kind: Kind) -> Option<Production>
    ensures { result ≡ choice_of part kind }
{
    match part {
        Part::Text => choice_text(kind),
        Part::Definition => choice_definition(kind),
        Part::Params => choice_params(kind),
        Part::ParamList => choice_param_list(kind),
        Part::ParamsTail => choice_params_tail(kind),
        Part::Param => choice_param(kind),
        Part::Items => choice_items(kind),
        Part::Item => choice_item(kind),
        Part::Elements => choice_elements(kind),
        Part::Simples => choice_simples(kind),
        Part::Simple => choice_simple(kind),
        Part::Element => choice_element(kind),
        Part::Expr => choice_expr(kind),
        Part::OrTail => choice_or_tail(kind),
        Part::Conj => choice_conj(kind),
        Part::AndTail => choice_and_tail(kind),
        Part::Neg => choice_neg(kind),
        Part::Cmp => choice_cmp(kind),
        Part::CmpTail => choice_cmp_tail(kind),
        Part::Sum => choice_sum(kind),
        Part::SumTail => choice_sum_tail(kind),
        Part::Prod => choice_prod(kind),
        Part::ProdTail => choice_prod_tail(kind),
        Part::Fact => choice_fact(kind),
        Part::Slot => choice_slot(kind),
        Part::Body => choice_body(kind),
        Part::Else => choice_else(kind),
        Part::Calls => choice_calls(kind),
        Part::Call => choice_call(kind),
        Part::BindList => choice_bind_list(kind),
        Part::BindsTail => choice_binds_tail(kind),
        Part::Bind => choice_bind(kind),
        Part::Bound => choice_bound(kind),
        Part::Value => choice_value(kind),
    }
}

/// The production by which a part is nothing, if it may be.
pub fn empty(part: Part) -> Option<Production>
    ensures { result ≡ empty_of part }
{
    match part {
        Part::Text => Some(Production::TextEnd),
        Part::ParamList => Some(Production::ParamNone),
        Part::ParamsTail => Some(Production::ParamLast),
        Part::Items => Some(Production::ItemEnd),
        Part::Elements => Some(Production::ElementEnd),
        Part::Simples => Some(Production::SimpleEnd),
        Part::OrTail => Some(Production::OrEnd),
        Part::AndTail => Some(Production::AndEnd),
        Part::CmpTail => Some(Production::CmpEnd),
        Part::SumTail => Some(Production::SumEnd),
        Part::ProdTail => Some(Production::ProdEnd),
        Part::Slot => Some(Production::SlotNone),
        Part::Calls => Some(Production::CallEnd),
        Part::BindList => Some(Production::BindNone),
        Part::BindsTail => Some(Production::BindLast),
        _ => None,
    }
}

/// The production that a part takes at a token of this kind, if there is one.
pub fn production(part: Part, kind: Kind) -> Option<Production>
    ensures { result ≡ production_of part kind }
{
    match choice(part, kind) {
        Some(production) => Some(production),
        None => empty(part),
    }
}
