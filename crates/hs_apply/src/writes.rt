//! What a block writes into slots of preserved nodes.

ghost use Rattle.std.specs.Prelude.{◌≡◌, ◌≤◌, ◌++◌, OnOk, IfOk};
ghost use Rattle.std.specs.List.{All};
ghost use Rattle.hs_expr.specs.declared.expr.TheConstants.{MAX_NESTING};
ghost use Rattle.hs_expr.specs.Evaluation.{nesting, value_of};
ghost use Rattle.hs_types.specs.Plan.{writes_of};
ghost use Rattle.hs_apply.specs.Blocks.{block_images, block_nodes};

use crate::block::Block;
use hs_eval::{Env, eval};
use hs_expr::{Expr, List, Value};
use hs_types::{SlotKind, Write};
use std::alloc::{AllocError, Global};

/// Adds the values that the block's `set`s write, in written order. A `set` whose expression has no
/// value writes nothing.
pub fn add_writes<E: Env>(
    alloc: Global,
    env: &E,
    block: &Block<'_>,
    writes: &mut List<Write>,
) -> Result<(), AllocError>
    requires shallow { All (λ item. nesting item.value ≤ MAX_NESTING) block.now.sets }
    ensures { OnOk result (writes.new ≡ writes.old ++ writes_of (E.reads env.now)
        (block_nodes block.now) (block_images block.now) block.now.sets) }
{
    for item in block.sets() {
        if !block.is_made(item.node) {
            if let Some(value) = value_of(alloc, env, &item.value)? {
                writes.push(Write {
                    object: block.image(item.node),
                    slot: SlotKind::Attribute(item.attribute),
                    value,
                })?;
            }
        }
    }
    Ok(())
}

/// The value of the expression, with a text of its own.
pub fn value_of<E: Env>(alloc: Global, env: &E, expr: &Expr) -> Result<Option<Value>, AllocError>
    requires shallow { nesting expr.now ≤ MAX_NESTING }
    ensures { IfOk result (λ value. value ≡ value_of (E.reads env.now) expr.now) }
{
    match eval(expr, env) {
        Some(value) => Ok(Some(value.to_value(alloc)?)),
        None => Ok(None),
    }
}
