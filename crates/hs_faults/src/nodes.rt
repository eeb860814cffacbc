//! The nodes that a rule declares, those of its blocks among them.

ghost use Rattle.std.specs.Prelude.{◌≡◌, ◌++◌, IfOk, OnOk};
ghost use Rattle.std.specs.List.{flat_map};
ghost use Rattle.hs_faults.specs.Nodes as spec;

use crate::numbers::numbered_nodes;
use hs_expr::{List, Name};
use hs_text::{Element, Item, Mark, Simple};
use std::alloc::{AllocError, Global};

/// A part of a rule: the kernel, or a block, by its index among the rule's items.
#[derive(Clone, Copy, PartialEq, Eq, Hash, Debug)]
pub enum BlockId {
    Kernel,
    /// A forbid or require block.
    Pattern(usize),
    /// A multi block.
    Multi(usize),
}

/// A node as a rule declares it.
#[derive(Debug, Drop)]
pub struct DeclaredNode {
    pub name: Name,
    pub class: Name,
    pub mark: Mark,
    pub block: BlockId,
    /// Its number in expressions; 0 before all nodes are known.
    pub number: u16,
}

/// All nodes that the items declare, in written order, with their numbers.
pub fn declared_nodes(alloc: Global, items: &[Item]) -> Result<List<DeclaredNode>, AllocError>
    ensures { IfOk result (λ nodes. nodes ≡ spec.declared_nodes items.now) }
{
    let nodes = written_nodes(alloc, items)?;
    numbered_nodes(alloc, nodes)
}

/// All nodes that the items declare, not numbered_nodes yet.
fn written_nodes(alloc: Global, items: &[Item]) -> Result<List<DeclaredNode>, AllocError>
    ensures { IfOk result (λ nodes. nodes ≡ spec.written_nodes items.now) }
{
    let mut nodes = List::new(alloc);
    for (i, item) in items.iter().enumerate() {
        add_of_item(&mut nodes, i, item)?;
    }
    Ok(nodes)
}

/// Adds the nodes of the item, which has this place.
fn add_of_item(nodes: &mut List<DeclaredNode>, place: usize, item: &Item) -> Result<(), AllocError>
    ensures { OnOk result (nodes.new ≡ nodes.old ++ spec.nodes_of_item place item.now) }
{
    match item {
        Item::Simple(simple) => add_of_simple(nodes, BlockId::Kernel, simple),
        Item::Forbid(elements) => add_of_elements(
            nodes,
            BlockId::Pattern(place),
            elements.as_slice(),
        ),
        Item::Require(elements) => {
            add_of_elements(nodes, BlockId::Pattern(place), elements.as_slice())
        }
        Item::Multi(simples) => add_of_simples(nodes, BlockId::Multi(place), simples.as_slice()),
    }
}

fn add_of_elements(
    nodes: &mut List<DeclaredNode>,
    block: BlockId,
    elements: &[Element],
) -> Result<(), AllocError>
    ensures { OnOk result (nodes.new
        ≡ nodes.old ++ flat_map (spec.node_of_element block Mark.Preserve) elements.now) }
{
    for element in elements {
        add_of_element(nodes, block, Mark::Preserve, element)?;
    }
    Ok(())
}

fn add_of_simples(
    nodes: &mut List<DeclaredNode>,
    block: BlockId,
    simples: &[Simple],
) -> Result<(), AllocError>
    ensures { OnOk result
        (nodes.new ≡ nodes.old ++ flat_map (spec.node_of_simple block) simples.now) }
{
    for simple in simples {
        add_of_simple(nodes, block, simple)?;
    }
    Ok(())
}

fn add_of_simple(
    nodes: &mut List<DeclaredNode>,
    block: BlockId,
    simple: &Simple,
) -> Result<(), AllocError>
    ensures { OnOk result (nodes.new ≡ nodes.old ++ spec.node_of_simple block simple.now) }
{
    match simple {
        Simple::Marked { mark, element } => add_of_element(nodes, block, *mark, element),
        Simple::Set { .. } | Simple::Where { .. } => Ok(()),
    }
}

fn add_of_element(
    nodes: &mut List<DeclaredNode>,
    block: BlockId,
    mark: Mark,
    element: &Element,
) -> Result<(), AllocError>
    ensures { OnOk result (nodes.new ≡ nodes.old ++ spec.node_of_element block mark element.now) }
{
    match element {
        Element::Node { name, class } => {
            nodes.push(DeclaredNode {
                name: copy_of(name)?,
                class: copy_of(class)?,
                mark,
                block,
                number: 0,
            })?;
            Ok(())
        }
        Element::Edge { .. } => Ok(()),
    }
}

pub fn copy_of(name: &Name) -> Result<Name, AllocError>
    ensures { IfOk result (λ copy. copy ≡ name.now) }
{
    Ok(Name {
        text: name.text.clone()?,
        span: name.span,
    })
}
