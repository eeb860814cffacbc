//! Terms, symbols and parts of the grammar.

use hs_tokens::Kind;

/// The tokens that may be at a place of the grammar.
#[derive(Clone, Copy)]
pub enum Term {
    /// A token of this kind.
    Just(Kind),
    /// Any word, reserved or not.
    Word,
    /// `in` or `out`.
    Direction,
    /// `preserve`, `create` or `delete`.
    Mark,
    /// `==`, `!=`, `<`, `<=`, `>` or `>=`.
    Comparison,
    /// `+` or `-`.
    Addition,
    /// What is a value by itself: an integer, a text, `true` or `false`.
    Literal,
    /// `sequential`, `independent` or `priority`.
    Order,
    /// An integer or a name.
    Count,
    /// A value by itself, or a name.
    Atom,
}

/// A part of the grammar.
#[derive(Clone, Copy)]
pub enum Part {
    Text,
    Definition,
    Params,
    ParamList,
    ParamsTail,
    Param,
    Items,
    Item,
    Elements,
    Simples,
    Simple,
    Element,
    Expr,
    OrTail,
    Conj,
    AndTail,
    Neg,
    Cmp,
    CmpTail,
    Sum,
    SumTail,
    Prod,
    ProdTail,
    Fact,
    Slot,
    Body,
    Else,
    Calls,
    Call,
    BindList,
    BindsTail,
    Bind,
    Bound,
    Value,
}

/// One way to write a part.
#[derive(Clone, Copy)]
pub enum Production {
    TextMore,
    TextEnd,
    RuleDefinition,
    UnitDefinition,
    Params,
    ParamFirst,
    ParamNone,
    ParamNext,
    ParamLast,
    Param,
    ItemMore,
    ItemEnd,
    ItemSimple,
    ItemForbid,
    ItemRequire,
    ItemMulti,
    ElementMore,
    ElementEnd,
    SimpleMore,
    SimpleEnd,
    SimpleElement,
    SimpleSet,
    SimpleWhere,
    ElementNode,
    ElementEdge,
    Expr,
    OrMore,
    OrEnd,
    Conj,
    AndMore,
    AndEnd,
    NegNot,
    NegCmp,
    Cmp,
    CmpMore,
    CmpEnd,
    Sum,
    SumMore,
    SumEnd,
    Prod,
    ProdMore,
    ProdEnd,
    FactLiteral,
    FactName,
    FactParens,
    FactMinus,
    SlotDot,
    SlotNone,
    BodyListed,
    BodyConditional,
    BodyLoop,
    BodyIterated,
    ElseSome,
    ElseNone,
    CallMore,
    CallEnd,
    Call,
    BindFirst,
    BindNone,
    BindNext,
    BindLast,
    Bind,
    BoundValue,
    BoundVariable,
    ValueAtom,
    ValueMinus,
}

/// What is done with the tokens that were held, once a part is read so far.
#[derive(Clone, Copy)]
pub enum Action {
    Rule,
    Param,
    Plain,
    Forbid,
    Require,
    Multi,
    Marked,
    Set,
    Where,
    Node,
    Edge,
    Binary,
    Not,
    Literal,
    Minus,
    Slot,
    Name,
    Listed,
    Loop,
    Iterated,
    IfElse,
    If,
    Call,
    Variable,
    Atom,
    MinusAtom,
}

/// What the rest of a text is made of.
#[derive(Clone, Copy)]
pub enum Symbol {
    /// A token of this kind, of which nothing is held.
    Skip(Kind),
    /// A token that is held.
    Keep(Term),
    Sub(Part),
    Act(Action),
}
