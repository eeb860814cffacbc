//! What a rule does at a match, block by block.

ghost use Rattle.std.specs.Prelude.{◌≡◌, ◌≤◌, [], IfOk, OnOk, map, slice_get};
ghost use Rattle.std.specs.List.{All};
ghost use Rattle.std.specs.Option.{unwrap_or};
ghost use Rattle.hs_expr.specs.declared.expr.TheConstants.{MAX_NESTING};
ghost use Rattle.hs_expr.specs.Evaluation.{nesting};
ghost use Rattle.hs_types.specs.Copies.{copies_of};
ghost use Rattle.hs_types.specs.Limits.{IsSmallRule};
ghost use Rattle.hs_types.specs.Plan.{plan_of};
ghost use Rattle.hs_types.specs.PlainMatch.{kernel_of};
ghost use Rattle.hs_apply.specs.Blocks as spec;

use crate::block::Block;
use crate::counting::more;
use crate::dropping::{add_dropped_edges, add_dropped_nodes};
use crate::making::{add_edges, add_objects};
use crate::writes::add_writes;
use hs_eval::MatchEnv;
use hs_types::{Args, Extension, Host, Match, Multi, Plan, Rule};
use std::alloc::{AllocError, Global};

/// What the rule does at the match with these arguments: the kernel's part first, then copy by
/// copy, each in written order. All values are those of the host's graph, in which nothing changes.
/// It asks for no valid match. It is out of memory where copies make more objects than 32 bits
/// count. The time is linear in the number of copies.
pub fn plan<H: Host>(
    alloc: Global,
    host: &H,
    rule: &Rule,
    args: &Args,
    found: &Match,
) -> Result<Plan, AllocError>
    requires small { IsSmallRule rule.now }
    ensures { IfOk result (λ plan. plan
        ≡ plan_of (H.metamodel host.now) (H.graph host.now) rule.now args.now found.now) }
{
    let mut plan = Plan::new(alloc);
    let kernel = Block::of_kernel(rule, found);
    add_block(alloc, host, rule, args, &kernel, 0, &mut plan)?;
    add_all_copies(alloc, host, rule, args, found, &mut plan)?;
    Ok(plan)
}

/// Adds what all copies of the match do.
fn add_all_copies<H: Host>(
    alloc: Global,
    host: &H,
    rule: &Rule,
    args: &Args,
    found: &Match,
    plan: &mut Plan,
) -> Result<(), AllocError>
    requires small { IsSmallRule rule.now }
    ensures { OnOk result (plan.new
        ≡ (spec.with_copies (H.metamodel host.now) (H.graph host.now) rule.now args.now
        (kernel_of found.now) (record { plan = plan.old; count = 0 })
        (copies_of rule.now found.now)).plan) }
{
    let multis = rule.multis.as_slice();
    let mut count = 0;
    for index in 0..multis.len() {
        let multi = &multis[index];
        let copies = copies_at(found, index);
        count = add_copies(alloc, host, rule, args, found, multi, copies, count, plan)?;
    }
    Ok(())
}

/// Adds what the block does, where the copies before it make `count` objects.
fn add_block<H: Host>(
    alloc: Global,
    host: &H,
    rule: &Rule,
    args: &Args,
    block: &Block<'_>,
    count: u32,
    plan: &mut Plan,
) -> Result<(), AllocError>
    requires shallow { All (λ item. nesting item.value ≤ MAX_NESTING) block.now.sets }
    ensures { OnOk result (plan.new ≡ spec.with_block (H.metamodel host.now) (H.graph host.now)
        rule.now args.now block.now count plan.old) }
{
    let shape = block.shape();
    let nodes = shape.nodes.as_slice();
    let env = MatchEnv {
        host,
        rule,
        args,
        base: block.base(),
        base_images: block.base_images(),
        nodes,
        images: block.images(),
    };
    add_dropped_nodes(nodes, block.images(), &mut plan.drop_objects)?;
    add_dropped_edges(
        shape.edges.as_slice(),
        block.edge_images(),
        &mut plan.drop_edges,
    )?;
    add_writes(alloc, &env, block, &mut plan.writes)?;
    add_objects(alloc, host.meta(), &env, block, &mut plan.make_objects)?;
    add_edges(block, count, &mut plan.make_edges)?;
    Ok(())
}

/// Adds what the copies of one multi-rule do, where those before them make `count` objects. The
/// answer is how many objects all of them make.
fn add_copies<H: Host>(
    alloc: Global,
    host: &H,
    rule: &Rule,
    args: &Args,
    kernel: &Match,
    multi: &Multi,
    copies: &[Extension],
    count: u32,
    plan: &mut Plan,
) -> Result<u32, AllocError>
    requires shallow { All (λ item. nesting item.value ≤ MAX_NESTING) multi.now.sets }
    ensures { IfOk result (λ made. record { plan = plan.new; count = made }
        ≡ spec.with_copies (H.metamodel host.now) (H.graph host.now) rule.now args.now
        (kernel_of kernel.now) (record { plan = plan.old; count = count })
        (map (λ found. record { multi = multi.now; found = found }) copies.now)) }
{
    let mut made = count;
    for found in copies {
        let block = Block::of_copy(rule, kernel, multi, found);
        add_block(alloc, host, rule, args, &block, made, plan)?;
        made = more(made, multi.shape.nodes.as_slice())?;
    }
    Ok(made)
}

/// The copies of the multi-rule at this index. Where the match has none there, there are no copies.
fn copies_at(found: &Match, index: usize) -> &[Extension]
    ensures { result.now ≡ unwrap_or (slice_get found.now.copies index) [] }
{
    match found.copies.get(index) {
        Some(copies) => copies.as_slice(),
        None => &[],
    }
}
