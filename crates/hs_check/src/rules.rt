//! The rules that a text means.

ghost use Rattle.std.specs.Prelude.{◌≡◌, ◌++◌, [], IfOk, OnOk, map};
ghost use Rattle.std.specs.List.{flat_map};
ghost use Rattle.hs_expr.specs.Verdict.{each};
ghost use Rattle.hs_types.specs.RuleForm.{reads_in};
ghost use Rattle.hs_check.specs.Rules as spec;
ghost use Rattle.hs_check.specs.Slots.{slots_from};

use crate::block::{Block, block_meant, multi_meant, part_meant};
use crate::parameters::params_meant;
use crate::slots::{add_reads_in, slots_from};
use hs_expr::{List, SlotRead};
use hs_faults::{BlockId, RuleContents};
use hs_text::Item;
use hs_types::{Meta, Multi, Part, PatternNode, PatternSlot, Rule, Shape};
use std::alloc::{AllocError, Global};

fn forbids(alloc: Global, items: &[Item]) -> Result<List<BlockId>, AllocError>
    ensures { IfOk result (λ homes. homes ≡ each spec.forbid_at items.now) }
{
    let mut homes = List::new(alloc);
    for (i, item) in items.iter().enumerate() {
        if let Item::Forbid(_) = item {
            homes.push(BlockId::Pattern(i))?;
        }
    }
    Ok(homes)
}

fn requires_of(alloc: Global, items: &[Item]) -> Result<List<BlockId>, AllocError>
    ensures { IfOk result (λ homes. homes ≡ each spec.require_at items.now) }
{
    let mut homes = List::new(alloc);
    for (i, item) in items.iter().enumerate() {
        if let Item::Require(_) = item {
            homes.push(BlockId::Pattern(i))?;
        }
    }
    Ok(homes)
}

fn multis(alloc: Global, items: &[Item]) -> Result<List<BlockId>, AllocError>
    ensures { IfOk result (λ homes. homes ≡ each spec.multi_at items.now) }
{
    let mut homes = List::new(alloc);
    for (i, item) in items.iter().enumerate() {
        if let Item::Multi(_) = item {
            homes.push(BlockId::Multi(i))?;
        }
    }
    Ok(homes)
}

fn parts_meant(
    alloc: Global,
    meta: &Meta,
    contents: &RuleContents<'_>,
    homes: &[BlockId],
) -> Result<List<Part>, AllocError>
    ensures { IfOk result
        (λ parts. parts ≡ map (spec.part_meant meta.now contents.now) homes.now) }
{
    let mut parts = List::new(alloc);
    for home in homes {
        parts.push(part_meant(alloc, meta, contents, *home)?)?;
    }
    Ok(parts)
}

fn multis_at(
    alloc: Global,
    meta: &Meta,
    contents: &RuleContents<'_>,
    kernel: &[PatternNode],
    homes: &[BlockId],
) -> Result<List<Multi>, AllocError>
    ensures { IfOk result
        (λ multis. multis ≡ map (spec.multi_meant meta.now contents.now kernel.now) homes.now) }
{
    let mut multis = List::new(alloc);
    for home in homes {
        multis.push(multi_meant(alloc, meta, contents, kernel, *home)?)?;
    }
    Ok(multis)
}

fn multis_meant(
    alloc: Global,
    meta: &Meta,
    contents: &RuleContents<'_>,
    kernel: &[PatternNode],
) -> Result<List<Multi>, AllocError>
    ensures { IfOk result
        (λ multis. multis ≡ map (spec.multi_meant meta.now contents.now kernel.now)
        (each spec.multi_at contents.now.rule.items)) }
{
    let homes = multis(alloc, contents.rule.items.as_slice())?;
    multis_at(alloc, meta, contents, kernel, homes.as_slice())
}

fn add_reads_of_multis(reads: &mut List<SlotRead>, multis: &[Multi]) -> Result<(), AllocError>
    ensures { OnOk result
        (reads.new ≡ reads.old ++ flat_map (λ multi. reads_in multi.wheres multi.sets) multis.now) }
{
    for multi in multis {
        add_reads_in(reads, multi.wheres.as_slice(), multi.sets.as_slice())?;
    }
    Ok(())
}

/// What a rule reads, its multi-rules included.
fn reads_with(alloc: Global, kernel: &Block, multis: &[Multi]) -> Result<List<SlotRead>, AllocError>
    ensures { IfOk result (λ reads. reads ≡ spec.reads_with kernel.now multis.now) }
{
    let mut reads = List::new(alloc);
    add_reads_in(&mut reads, kernel.wheres.as_slice(), kernel.sets.as_slice())?;
    add_reads_of_multis(&mut reads, multis)?;
    Ok(reads)
}

/// The slots of the kernel.
fn kernel_slots(
    alloc: Global,
    meta: &Meta,
    kernel: &Block,
    multis: &[Multi],
) -> Result<List<PatternSlot>, AllocError>
    ensures { IfOk result
        (λ slots. slots ≡ slots_from meta.now (spec.reads_with kernel.now multis.now)
        kernel.now.sets 0 kernel.now.nodes) }
{
    let reads = reads_with(alloc, kernel, multis)?;
    slots_from(
        alloc,
        meta,
        reads.as_slice(),
        kernel.sets.as_slice(),
        &[],
        kernel.nodes.as_slice(),
    )
}

fn forbids_meant(
    alloc: Global,
    meta: &Meta,
    contents: &RuleContents<'_>,
) -> Result<List<Part>, AllocError>
    ensures { IfOk result
        (λ parts. parts ≡ map (spec.part_meant meta.now contents.now)
        (each spec.forbid_at contents.now.rule.items)) }
{
    let homes = forbids(alloc, contents.rule.items.as_slice())?;
    parts_meant(alloc, meta, contents, homes.as_slice())
}

fn needs_meant(
    alloc: Global,
    meta: &Meta,
    contents: &RuleContents<'_>,
) -> Result<List<Part>, AllocError>
    ensures { IfOk result
        (λ parts. parts ≡ map (spec.part_meant meta.now contents.now)
        (each spec.require_at contents.now.rule.items)) }
{
    let homes = requires_of(alloc, contents.rule.items.as_slice())?;
    parts_meant(alloc, meta, contents, homes.as_slice())
}

/// The rule with this kernel and these multi-rules.
fn rule_with(
    alloc: Global,
    meta: &Meta,
    contents: &RuleContents<'_>,
    kernel: Block,
    multis: List<Multi>,
) -> Result<Rule, AllocError>
    ensures { IfOk result
        (λ meant. meant ≡ spec.rule_with meta.now contents.now kernel multis) }
{
    let slots = kernel_slots(alloc, meta, &kernel, multis.as_slice())?;
    let forbids = forbids_meant(alloc, meta, contents)?;
    let needs = needs_meant(alloc, meta, contents)?;
    Ok(Rule {
        name: contents.rule.name.text.clone()?,
        params: params_meant(alloc, meta, contents.rule.params.as_slice())?,
        shape: Shape {
            nodes: kernel.nodes,
            edges: kernel.edges,
            slots,
        },
        forbids,
        needs,
        multis,
        wheres: kernel.wheres,
        sets: kernel.sets,
    })
}

/// The rule with this kernel.
fn rule_around(
    alloc: Global,
    meta: &Meta,
    contents: &RuleContents<'_>,
    kernel: Block,
) -> Result<Rule, AllocError>
    ensures { IfOk result
        (λ meant. meant ≡ spec.rule_around meta.now contents.now kernel) }
{
    let multis = multis_meant(alloc, meta, contents, kernel.nodes.as_slice())?;
    rule_with(alloc, meta, contents, kernel, multis)
}

/// The rule that declares and states this.
fn rule_from(alloc: Global, meta: &Meta, contents: &RuleContents<'_>) -> Result<Rule, AllocError>
    ensures { IfOk result (λ meant. meant ≡ spec.rule_from meta.now contents.now) }
{
    let kernel = block_meant(alloc, meta, contents, BlockId::Kernel)?;
    rule_around(alloc, meta, contents, kernel)
}

/// The rules that declare and state this.
pub fn rules_meant(
    alloc: Global,
    meta: &Meta,
    all: &[RuleContents<'_>],
) -> Result<List<Rule>, AllocError>
    ensures { IfOk result (λ rules. rules ≡ map (spec.rule_from meta.now) all.now) }
{
    let mut rules = List::new(alloc);
    for contents in all {
        rules.push(rule_from(alloc, meta, contents)?)?;
    }
    Ok(rules)
}
