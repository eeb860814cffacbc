//! What is made of the tokens that the grammar takes.

ghost use Rattle.std.specs.Prelude.{◌≡◌, ◌∷◌, [], IfOk, OnOk};
ghost use Rattle.hs_text.specs.declared.grammar.Action.TheVariants as action;

use crate::grammar::Action;
use crate::syntax::{Atom, Bind, Body, Call, Definition, Element, Item, Param, Rule, Simple, Unit};
use crate::words;
use hs_expr::{List, NameExpr, Piece, Stack};
use hs_tokens::Token;
use std::alloc::{AllocError, Global};
use std::mem;

/// Syntax that is being made: what is done, and what its next parts are made of.
#[derive(Debug, Drop)]
pub struct Builder {
    /// The tokens of which nothing is made yet, the last one on top.
    pub held: Stack<Token>,
    pub definitions: List<Definition>,
    pub params: List<Param>,
    pub items: List<Item>,
    pub elements: Stack<Element>,
    pub simples: Stack<Simple>,
    pub pieces: List<Piece>,
    pub calls: Stack<Call>,
    pub binds: List<Bind>,
}

impl Builder {
    ghost use Rattle.hs_expr.specs.NameExprs.{name_expr};
    ghost use Rattle.hs_text.specs.Building.{top, below, last_token, last_but_one, last_but_two, below_one, below_two, below_three, with_token, builder_after, with_unit, with_piece, with_value, no_builder};

    /// Nothing is made yet.
    pub fn new(alloc: Global) -> Builder
        ensures { result ≡ no_builder }
    {
        Builder {
            held: Stack::new(alloc),
            definitions: List::new(alloc),
            params: List::new(alloc),
            items: List::new(alloc),
            elements: Stack::new(alloc),
            simples: Stack::new(alloc),
            pieces: List::new(alloc),
            calls: Stack::new(alloc),
            binds: List::new(alloc),
        }
    }

    /// Holds a token.
    pub fn hold(&mut self, token: Token) -> Result<(), AllocError>
        ensures { OnOk result (self.new ≡ with_token token self.old) }
    {
        self.held.push(token)?;
        Ok(())
    }

    /// Takes the last token that is held.
    fn last(&mut self) -> Token
        ensures token { result ≡ last_token self.old }
        ensures rest { self.new ≡ record self.old { held = below_one self.old } }
    {
        self.held.pop().unwrap_or(Token::NONE)
    }

    /// Makes what the action says.
    pub fn act(&mut self, alloc: Global, source: &[char], action: Action) -> Result<(), AllocError>
        ensures { OnOk result (self.new ≡ builder_after source.now action self.old) }
    {
        match action {
            Action::Rule => self.end_rule(alloc, source),
            Action::Param => self.param(alloc, source),
            Action::Plain => self.plain(),
            Action::Forbid => self.forbid(alloc),
            Action::Require => self.require(alloc),
            Action::Multi => self.multi(alloc),
            Action::Marked => self.marked(),
            Action::Set => self.set(alloc, source),
            Action::Where => self.condition(alloc),
            Action::Node => self.node(alloc, source),
            Action::Edge => self.edge(alloc, source),
            Action::Binary => self.binary(),
            Action::Not => self.not(),
            Action::Minus => self.minus(),
            Action::Literal => self.literal(alloc, source),
            Action::Name => self.name(alloc, source),
            Action::Slot => self.slot(alloc, source),
            Action::Listed => self.listed(alloc, source),
            Action::If => self.conditional(alloc, source),
            Action::IfElse => self.alternative(alloc, source),
            Action::Loop => self.repeated(alloc, source),
            Action::Iterated => self.iterated(alloc, source),
            Action::Call => self.call(alloc, source),
            Action::Variable => self.variable(alloc, source),
            Action::Atom => self.atom(alloc, source),
            Action::MinusAtom => self.minus_atom(alloc, source),
        }
    }

    fn end_rule(&mut self, alloc: Global, source: &[char]) -> Result<(), AllocError>
        ensures { OnOk result (self.new ≡ builder_after source.now action.Rule self.old) }
    {
        let name = words::name(alloc, source, self.last())?;
        let params = mem::replace(&mut self.params, List::new(alloc));
        let items = mem::replace(&mut self.items, List::new(alloc));
        self.definitions.push(Definition::Rule(Rule {
            name,
            params,
            items,
        }))
    }

    fn param(&mut self, alloc: Global, source: &[char]) -> Result<(), AllocError>
        ensures { OnOk result (self.new ≡ builder_after source.now action.Param self.old) }
    {
        let kind = words::name(alloc, source, self.last())?;
        let name = words::name(alloc, source, self.last())?;
        let direction = words::direction(self.last().kind);
        self.params.push(Param {
            direction,
            name,
            kind,
        })
    }

    fn plain(&mut self) -> Result<(), AllocError>
        ensures { OnOk result (self.new ≡ builder_after [] action.Plain self.old) }
    {
        match self.simples.pop() {
            Some(simple) => self.items.push(Item::Simple(simple)),
            None => Ok(()),
        }
    }

    fn forbid(&mut self, alloc: Global) -> Result<(), AllocError>
        ensures { OnOk result (self.new ≡ builder_after [] action.Forbid self.old) }
    {
        let elements = self.elements.take(alloc);
        self.items.push(Item::Forbid(elements))
    }

    fn require(&mut self, alloc: Global) -> Result<(), AllocError>
        ensures { OnOk result (self.new ≡ builder_after [] action.Require self.old) }
    {
        let elements = self.elements.take(alloc);
        self.items.push(Item::Require(elements))
    }

    fn multi(&mut self, alloc: Global) -> Result<(), AllocError>
        ensures { OnOk result (self.new ≡ builder_after [] action.Multi self.old) }
    {
        let simples = self.simples.take(alloc);
        self.items.push(Item::Multi(simples))
    }

    fn marked(&mut self) -> Result<(), AllocError>
        ensures { OnOk result (self.new ≡ builder_after [] action.Marked self.old) }
    {
        let mark = words::mark(self.last().kind);
        match self.elements.pop() {
            Some(element) => self.simples.push(Simple::Marked { mark, element }),
            None => Ok(()),
        }
    }

    /// The expression that the pieces are, if they are one.
    fn expr(&mut self, alloc: Global) -> Option<NameExpr>
        ensures expr { result ≡ name_expr self.old.pieces }
        ensures rest { self.new ≡ record self.old { pieces = [] } }
    {
        NameExpr::new(mem::replace(&mut self.pieces, List::new(alloc)))
    }

    fn set(&mut self, alloc: Global, source: &[char]) -> Result<(), AllocError>
        ensures { OnOk result (self.new ≡ builder_after source.now action.Set self.old) }
    {
        let attribute = words::name(alloc, source, self.last())?;
        let node = words::name(alloc, source, self.last())?;
        match self.expr(alloc) {
            Some(value) => self.simples.push(Simple::Set {
                node,
                attribute,
                value,
            }),
            None => Ok(()),
        }
    }

    fn condition(&mut self, alloc: Global) -> Result<(), AllocError>
        ensures { OnOk result (self.new ≡ builder_after [] action.Where self.old) }
    {
        let word = self.last().span;
        match self.expr(alloc) {
            Some(test) => self.simples.push(Simple::Where { word, test }),
            None => Ok(()),
        }
    }

    fn node(&mut self, alloc: Global, source: &[char]) -> Result<(), AllocError>
        ensures { OnOk result (self.new ≡ builder_after source.now action.Node self.old) }
    {
        let class = words::name(alloc, source, self.last())?;
        let name = words::name(alloc, source, self.last())?;
        self.elements.push(Element::Node { name, class })
    }

    fn edge(&mut self, alloc: Global, from: &[char]) -> Result<(), AllocError>
        ensures { OnOk result (self.new ≡ builder_after from.now action.Edge self.old) }
    {
        let reference = words::name(alloc, from, self.last())?;
        let target = words::name(alloc, from, self.last())?;
        let source = words::name(alloc, from, self.last())?;
        self.elements.push(Element::Edge {
            source,
            target,
            reference,
        })
    }

    fn binary(&mut self) -> Result<(), AllocError>
        ensures { OnOk result (self.new ≡ builder_after [] action.Binary self.old) }
    {
        let token = self.last();
        self.pieces.push(Piece::Binary {
            sign: words::sign(token.kind),
            span: token.span,
        })
    }

    fn not(&mut self) -> Result<(), AllocError>
        ensures { OnOk result (self.new ≡ builder_after [] action.Not self.old) }
    {
        let span = self.last().span;
        self.pieces.push(Piece::Not { span })
    }

    fn minus(&mut self) -> Result<(), AllocError>
        ensures { OnOk result (self.new ≡ builder_after [] action.Minus self.old) }
    {
        let span = self.last().span;
        self.pieces.push(Piece::Minus { span })
    }

    fn literal(&mut self, alloc: Global, source: &[char]) -> Result<(), AllocError>
        ensures { OnOk result (self.new ≡ builder_after source.now action.Literal self.old) }
    {
        let piece = words::literal(alloc, source, self.last())?;
        self.pieces.push(piece)
    }

    fn name(&mut self, alloc: Global, source: &[char]) -> Result<(), AllocError>
        ensures { OnOk result (self.new ≡ builder_after source.now action.Name self.old) }
    {
        let name = words::name(alloc, source, self.last())?;
        self.pieces.push(Piece::Name(name))
    }

    fn slot(&mut self, alloc: Global, source: &[char]) -> Result<(), AllocError>
        ensures { OnOk result (self.new ≡ builder_after source.now action.Slot self.old) }
    {
        let attribute = words::name(alloc, source, self.last())?;
        let node = words::name(alloc, source, self.last())?;
        self.pieces.push(Piece::Slot { node, attribute })
    }

    /// Ends a unit, whose name is held.
    fn finish(&mut self, alloc: Global, source: &[char], body: Body) -> Result<(), AllocError>
        ensures { OnOk result (self.new ≡ with_unit source.now self.old body) }
    {
        let name = words::name(alloc, source, self.last())?;
        let params = mem::replace(&mut self.params, List::new(alloc));
        self.definitions
            .push(Definition::Unit(Unit { name, params, body }))
    }

    fn listed(&mut self, alloc: Global, source: &[char]) -> Result<(), AllocError>
        ensures { OnOk result (self.new ≡ builder_after source.now action.Listed self.old) }
    {
        let kind = self.last().kind;
        let calls = self.calls.take(alloc);
        self.finish(alloc, source, words::listed(kind, calls))
    }

    fn conditional(&mut self, alloc: Global, source: &[char]) -> Result<(), AllocError>
        ensures { OnOk result (self.new ≡ builder_after source.now action.If self.old) }
    {
        let Some(then) = self.calls.pop() else {
            return Ok(());
        };
        let Some(test) = self.calls.pop() else {
            return Ok(());
        };
        let body = Body::Conditional {
            test,
            then,
            otherwise: None,
        };
        self.finish(alloc, source, body)
    }

    fn alternative(&mut self, alloc: Global, source: &[char]) -> Result<(), AllocError>
        ensures { OnOk result (self.new ≡ builder_after source.now action.IfElse self.old) }
    {
        let Some(otherwise) = self.calls.pop() else {
            return Ok(());
        };
        let Some(then) = self.calls.pop() else {
            return Ok(());
        };
        let Some(test) = self.calls.pop() else {
            return Ok(());
        };
        let body = Body::Conditional {
            test,
            then,
            otherwise: Some(otherwise),
        };
        self.finish(alloc, source, body)
    }

    fn repeated(&mut self, alloc: Global, source: &[char]) -> Result<(), AllocError>
        ensures { OnOk result (self.new ≡ builder_after source.now action.Loop self.old) }
    {
        let Some(call) = self.calls.pop() else {
            return Ok(());
        };
        self.finish(alloc, source, Body::Loop(call))
    }

    fn iterated(&mut self, alloc: Global, source: &[char]) -> Result<(), AllocError>
        ensures { OnOk result (self.new ≡ builder_after source.now action.Iterated self.old) }
    {
        let Some(call) = self.calls.pop() else {
            return Ok(());
        };
        let count = words::count(alloc, source, self.last())?;
        self.finish(alloc, source, Body::Iterated { count, call })
    }

    fn call(&mut self, alloc: Global, source: &[char]) -> Result<(), AllocError>
        ensures { OnOk result (self.new ≡ builder_after source.now action.Call self.old) }
    {
        let callee = words::name(alloc, source, self.last())?;
        let binds = mem::replace(&mut self.binds, List::new(alloc));
        self.calls.push(Call { callee, binds })
    }

    fn variable(&mut self, alloc: Global, source: &[char]) -> Result<(), AllocError>
        ensures { OnOk result (self.new ≡ builder_after source.now action.Variable self.old) }
    {
        let variable = words::name(alloc, source, self.last())?;
        let parameter = words::name(alloc, source, self.last())?;
        self.binds.push(Bind::Take {
            parameter,
            variable,
        })
    }

    /// Gives a value to the parameter whose name is held.
    fn give(&mut self, alloc: Global, source: &[char], value: Atom) -> Result<(), AllocError>
        ensures { OnOk result (self.new
            ≡ with_value source.now self.old (last_token self.old) (below_one self.old) value) }
    {
        let parameter = words::name(alloc, source, self.last())?;
        self.binds.push(Bind::Give { parameter, value })
    }

    fn atom(&mut self, alloc: Global, source: &[char]) -> Result<(), AllocError>
        ensures { OnOk result (self.new ≡ builder_after source.now action.Atom self.old) }
    {
        let value = words::atom(alloc, source, self.last())?;
        self.give(alloc, source, value)
    }

    fn minus_atom(&mut self, alloc: Global, source: &[char]) -> Result<(), AllocError>
        ensures { OnOk result (self.new ≡ builder_after source.now action.MinusAtom self.old) }
    {
        let token = self.last();
        let value = Atom::Int {
            minus: true,
            value: token.number,
            span: token.span,
        };
        self.give(alloc, source, value)
    }
}
