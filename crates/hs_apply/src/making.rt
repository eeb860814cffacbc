//! What a block creates.

ghost use Rattle.std.specs.Prelude.{◌≡◌, ◌≤◌, ◌++◌, OnOk, IfOk, eqb, ◌&&◌, length, option_copied};
ghost use Rattle.std.specs.List.{All, find};
ghost use Rattle.std.specs.Option.{option_or};
ghost use Rattle.hs_expr.specs.declared.expr.TheConstants.{MAX_NESTING};
ghost use Rattle.hs_expr.specs.Evaluation.{nesting};
ghost use Rattle.hs_types.specs.Metamodel.{default_of};
ghost use Rattle.hs_types.specs.Plan as plan;
ghost use Rattle.hs_apply.specs.Blocks.{block_end};

use crate::block::Block;
use crate::writes::value_of;
use hs_eval::Env;
use hs_expr::{List, Value};
use hs_types::{ClassNo, FeatureNo, MadeEdge, MadeObject, Meta, SetItem, Slot};
use std::alloc::{AllocError, Global};

/// Adds an object for each node that the block creates.
pub fn add_objects<E: Env>(
    alloc: Global,
    meta: &Meta,
    env: &E,
    block: &Block<'_>,
    objects: &mut List<MadeObject>,
) -> Result<(), AllocError>
    requires shallow { All (λ item. nesting item.value ≤ MAX_NESTING) block.now.sets }
    ensures { OnOk result (objects.new ≡ objects.old ++ plan.objects_for meta.now (E.reads env.now)
        block.now.sets (length block.now.base) block.now.shape.nodes) }
{
    let mut number = block.base().len();
    for node in block.shape().nodes.as_slice() {
        if node.mark.is_make() {
            let slots = made_slots(alloc, meta, env, block.sets(), number, node.class)?;
            objects.push(MadeObject::new(alloc, node.class, slots)?)?;
        }
        number += 1;
    }
    Ok(())
}

/// The slots of the object that is made for the node of this number: each attribute of its class
/// with the value that is set, or else its default.
fn made_slots<E: Env>(
    alloc: Global,
    meta: &Meta,
    env: &E,
    sets: &[SetItem],
    number: usize,
    class: ClassNo,
) -> Result<List<Slot>, AllocError>
    requires shallow { All (λ item. nesting item.value ≤ MAX_NESTING) sets.now }
    ensures { IfOk result (λ slots.
        slots ≡ plan.made_slots meta.now (E.reads env.now) sets.now number class) }
{
    let mut slots = List::new(alloc);
    for feature in meta.features_of(class) {
        if meta.type_of(*feature).is_some() {
            if let Some(value) = made_value(alloc, meta, env, sets, number, *feature)? {
                slots.push(Slot {
                    attribute: *feature,
                    value,
                })?;
            }
        }
    }
    Ok(slots)
}

/// The value that is set, or else the default.
fn made_value<E: Env>(
    alloc: Global,
    meta: &Meta,
    env: &E,
    sets: &[SetItem],
    number: usize,
    attribute: FeatureNo,
) -> Result<Option<Value>, AllocError>
    requires shallow { All (λ item. nesting item.value ≤ MAX_NESTING) sets.now }
    ensures { IfOk result (λ value. value
        ≡ option_or (plan.value_set (E.reads env.now) sets.now number attribute)
        (default_of meta.now attribute)) }
{
    match value_set(alloc, env, sets, number, attribute)? {
        Some(value) => Ok(Some(value)),
        None => default_of(meta, attribute),
    }
}

fn value_set<E: Env>(
    alloc: Global,
    env: &E,
    sets: &[SetItem],
    number: usize,
    attribute: FeatureNo,
) -> Result<Option<Value>, AllocError>
    requires shallow { All (λ item. nesting item.value ≤ MAX_NESTING) sets.now }
    ensures { IfOk result (λ value.
        value ≡ plan.value_set (E.reads env.now) sets.now number attribute) }
{
    match set_of(sets, number, attribute) {
        Some(item) => value_of(alloc, env, &item.value),
        None => Ok(None),
    }
}

/// The first `set` of this attribute of the node of this number.
fn set_of(sets: &[SetItem], number: usize, attribute: FeatureNo) -> Option<&SetItem>
    ensures { option_copied result
        ≡ find (λ item. eqb item.node number && eqb item.attribute attribute) sets.now }
{
    sets.iter().find(|item| usize::from(item.node) == number && item.attribute == attribute)
}

fn default_of(meta: &Meta, attribute: FeatureNo) -> Result<Option<Value>, AllocError>
    ensures { IfOk result (λ value. value ≡ default_of meta.now attribute) }
{
    match meta.default_of(attribute) {
        Some(value) => Ok(Some(value.clone()?)),
        None => Ok(None),
    }
}

/// Adds the edges that the block creates, where the copies before it make `count` objects.
pub fn add_edges(
    block: &Block<'_>,
    count: u32,
    edges: &mut List<MadeEdge>,
) -> Result<(), AllocError>
    ensures { OnOk result (edges.new
        ≡ edges.old ++ plan.edges_for (block_end block.now count) block.now.shape.edges) }
{
    for edge in block.shape().edges.as_slice() {
        if edge.mark.is_make() {
            edges.push(MadeEdge {
                source: block.end(count, edge.source)?,
                reference: edge.reference,
                target: block.end(count, edge.target)?,
            })?;
        }
    }
    Ok(())
}
