//! The parts of a rule: the kernel, forbid and require blocks, and multi blocks.

ghost use Rattle.std.specs.Prelude.{◌≡◌, IfOk, length};
ghost use Rattle.hs_check.specs.Rules as spec;

use crate::elements::{edges_of_part, nodes_in};
use crate::expressions::{sets_in, wheres_in};
use crate::slots::{add_reads_in, slots_from};
use hs_expr::{Expr, List};
use hs_faults::{BlockId, RuleContents};
use hs_types::{Meta, Multi, Part, PatternEdge, PatternNode, SetItem, Shape};
use std::alloc::{AllocError, Global};

/// What the kernel or a multi block denotes, but for its slots.
#[derive(Debug, Drop)]
pub struct Block {
    pub nodes: List<PatternNode>,
    pub edges: List<PatternEdge>,
    pub wheres: List<Expr>,
    pub sets: List<SetItem>,
}

/// A forbid or require block.
pub fn part_meant(
    alloc: Global,
    meta: &Meta,
    contents: &RuleContents<'_>,
    part: BlockId,
) -> Result<Part, AllocError>
    ensures { IfOk result (λ meant. meant ≡ spec.part_meant meta.now contents.now part) }
{
    let declared = contents.nodes.as_slice();
    let statements = contents.statements.as_slice();
    Ok(Part {
        nodes: nodes_in(alloc, meta, declared, part)?,
        edges: edges_of_part(alloc, meta, declared, statements, part)?,
    })
}

/// The kernel or a multi block.
pub fn block_meant(
    alloc: Global,
    meta: &Meta,
    contents: &RuleContents<'_>,
    part: BlockId,
) -> Result<Block, AllocError>
    ensures { IfOk result (λ block. block ≡ spec.block_meant meta.now contents.now part) }
{
    let declared = contents.nodes.as_slice();
    let statements = contents.statements.as_slice();
    Ok(Block {
        nodes: nodes_in(alloc, meta, declared, part)?,
        edges: edges_of_part(alloc, meta, declared, statements, part)?,
        wheres: wheres_in(alloc, statements, part)?,
        sets: sets_in(alloc, meta, declared, statements, part)?,
    })
}

/// The multi-rule of a block, after these nodes of the kernel.
pub fn multi_meant(
    alloc: Global,
    meta: &Meta,
    contents: &RuleContents<'_>,
    kernel: &[PatternNode],
    part: BlockId,
) -> Result<Multi, AllocError>
    ensures { IfOk result
        (λ multi. multi ≡ spec.multi_meant meta.now contents.now kernel.now part) }
{
    let block = block_meant(alloc, meta, contents, part)?;
    multi_of(alloc, meta, kernel, block)
}

fn multi_of(
    alloc: Global,
    meta: &Meta,
    kernel: &[PatternNode],
    block: Block,
) -> Result<Multi, AllocError>
    ensures { IfOk result (λ multi. multi ≡ spec.multi_of meta.now (length kernel.now) block) }
{
    let Block {
        nodes,
        edges,
        wheres,
        sets,
    } = block;
    let mut reads = List::new(alloc);
    add_reads_in(&mut reads, wheres.as_slice(), sets.as_slice())?;
    let slots = slots_from(
        alloc,
        meta,
        reads.as_slice(),
        sets.as_slice(),
        kernel,
        nodes.as_slice(),
    )?;
    Ok(Multi {
        shape: Shape {
            nodes,
            edges,
            slots,
        },
        wheres,
        sets,
    })
}
