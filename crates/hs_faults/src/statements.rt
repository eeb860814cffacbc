//! What a rule says of its nodes: edges, sets and conditions.

ghost use Rattle.std.specs.Prelude.{◌≡◌, ◌++◌, ◌∷◌, [], IfOk, OnOk};
ghost use Rattle.std.specs.List.{flat_map};
ghost use Rattle.hs_faults.specs.StatementKinds.{statement_at};
ghost use Rattle.hs_faults.specs.Statements as spec;

use crate::nodes::BlockId;
use hs_expr::{Expr, List, Name, NameExpr, Span};
use hs_text::{Element, Item, Mark, Simple};
use std::alloc::{AllocError, Global};
use std::marker::Model;

/// What is statement_at.
#[derive(Clone, Copy)]
pub enum StatementKind<'a> {
    Edge {
        mark: Mark,
        source: &'a Name,
        target: &'a Name,
        reference: &'a Name,
    },
    Set {
        node: &'a Name,
        attribute: &'a Name,
        value: &'a NameExpr,
    },
    /// The condition, and the position of the word `where`.
    Where {
        word: Span,
        test: &'a NameExpr,
    },
}

/// An edge, a set or a condition, with its block.
#[derive(Drop)]
pub struct Statement<'a> {
    pub block: BlockId,
    pub kind: StatementKind<'a>,
}

impl<'a> Model for Statement<'a> {
    ghost use Rattle.hs_faults.specs.Statements as spec;
    ghost use Rattle.hs_faults.specs.StatementKinds.{statement_at};

    ghost Value = { spec.Statement };

    ghost view = { λ statement. statement_at statement.block statement.kind };
}

/// A statement with its expression by numbers, where it has one that nests at most 32 deep.
#[derive(Drop)]
pub struct CheckedStatement<'a> {
    pub statement: Statement<'a>,
    pub expr: Option<Expr>,
}

/// All statements of the items, in written order.
pub fn statements(alloc: Global, items: &[Item]) -> Result<List<Statement<'_>>, AllocError>
    ensures { IfOk result (λ all. all ≡ spec.statements items.now) }
{
    let mut all = List::new(alloc);
    for (i, item) in items.iter().enumerate() {
        add_of_item(&mut all, i, item)?;
    }
    Ok(all)
}

/// Adds the statements of the item, which has this place.
fn add_of_item<'a>(
    all: &mut List<Statement<'a>>,
    place: usize,
    item: &'a Item,
) -> Result<(), AllocError>
    ensures { OnOk result (all.new ≡ all.old ++ spec.statements_of_item place item.now) }
{
    match item {
        Item::Simple(simple) => add_of_simple(all, BlockId::Kernel, simple),
        Item::Forbid(elements) => add_of_elements(
            all,
            BlockId::Pattern(place),
            elements.as_slice(),
        ),
        Item::Require(elements) => add_of_elements(
            all,
            BlockId::Pattern(place),
            elements.as_slice(),
        ),
        Item::Multi(simples) => add_of_simples(all, BlockId::Multi(place), simples.as_slice()),
    }
}

fn add_of_elements<'a>(
    all: &mut List<Statement<'a>>,
    block: BlockId,
    elements: &'a [Element],
) -> Result<(), AllocError>
    ensures { OnOk result (all.new
        ≡ all.old ++ flat_map (spec.statement_of_element block Mark.Preserve) elements.now) }
{
    for element in elements {
        add_of_element(all, block, Mark::Preserve, element)?;
    }
    Ok(())
}

fn add_of_simples<'a>(
    all: &mut List<Statement<'a>>,
    block: BlockId,
    simples: &'a [Simple],
) -> Result<(), AllocError>
    ensures { OnOk result
        (all.new ≡ all.old ++ flat_map (spec.statement_of_simple block) simples.now) }
{
    for simple in simples {
        add_of_simple(all, block, simple)?;
    }
    Ok(())
}

fn add_of_simple<'a>(
    all: &mut List<Statement<'a>>,
    block: BlockId,
    simple: &'a Simple,
) -> Result<(), AllocError>
    ensures { OnOk result (all.new ≡ all.old ++ spec.statement_of_simple block simple.now) }
{
    match simple {
        Simple::Marked { mark, element } => add_of_element(all, block, *mark, element),
        Simple::Set {
            node,
            attribute,
            value,
        } => add(
            all,
            block,
            StatementKind::Set {
                node,
                attribute,
                value,
            },
        ),
        Simple::Where { word, test } => add(all, block, StatementKind::Where { word: *word, test }),
    }
}

fn add_of_element<'a>(
    all: &mut List<Statement<'a>>,
    block: BlockId,
    mark: Mark,
    element: &'a Element,
) -> Result<(), AllocError>
    ensures { OnOk result (all.new ≡ all.old ++ spec.statement_of_element block mark element.now) }
{
    match element {
        Element::Node { .. } => Ok(()),
        Element::Edge {
            source,
            target,
            reference,
        } => add(
            all,
            block,
            StatementKind::Edge {
                mark,
                source,
                target,
                reference,
            },
        ),
    }
}

fn add<'a>(
    all: &mut List<Statement<'a>>,
    block: BlockId,
    kind: StatementKind<'a>,
) -> Result<(), AllocError>
    ensures { OnOk result (all.new ≡ all.old ++ statement_at block kind.entry ∷ []) }
{
    all.push(Statement { block, kind })?;
    Ok(())
}
