//! The numbers of the nodes of a rule.

ghost use Rattle.std.specs.Prelude.{◌≡◌, ◌++◌, ◌∷◌, [], IfOk, List, OnOk, length, min};
ghost use Rattle.hs_faults.specs.Numbers as spec;

use crate::edges::same_block;
use crate::nodes::{BlockId, DeclaredNode};
use hs_expr::List;
use indexmap::IndexMap;
use std::alloc::{AllocError, Global};

/// How many nodes each part of a rule has.
type Counts = IndexMap<BlockId, u16>;

/// The number of what has this place.
pub fn number_at(place: usize) -> u16
    ensures { result ≡ spec.number_at place }
{
    u16::try_from(place).unwrap_or(u16::MAX)
}

/// How many of the nodes are of this part of the rule.
pub fn count_in(nodes: &[DeclaredNode], part: BlockId) -> usize
    ensures { result ≡ spec.count_in nodes.now part }
{
    nodes
        .iter()
        .filter(|node| same_block(part, node.block))
        .count()
}

/// Counts one more node of this part of the rule. Gives how many there were.
fn count_one(counts: &mut Counts, block: BlockId) -> Result<u16, AllocError>
    ensures count { (nodes : List DeclaredNode) → spec.HasCounts counts.old nodes
        → IfOk result (λ count. count ≡ spec.number_at (spec.count_in nodes block)) }
    ensures counts { (nodes : List DeclaredNode) (node : DeclaredNode)
        → spec.HasCounts counts.old nodes → node.block ≡ block
        → OnOk result (spec.HasCounts counts.new (nodes ++ node ∷ [])) }
{
    let count = counts.get(&block).copied().unwrap_or(0);
    counts.insert(block, count.saturating_add(1))?;
    Ok(count)
}

/// Adds the node with its number, after those before it.
fn add_numbered(
    all: &mut List<DeclaredNode>,
    counts: &mut Counts,
    kernel: u16,
    node: DeclaredNode,
) -> Result<(), AllocError>
    ensures all { (nodes before : List DeclaredNode) → kernel
        ≡ spec.number_at (spec.count_in nodes BlockId.Kernel) → spec.HasCounts counts.old before
        → OnOk result (all.new
        ≡ all.old ++ spec.with_number (spec.number_of_node nodes before node) node ∷ []) }
    ensures counts { (before : List DeclaredNode) → spec.HasCounts counts.old before
        → OnOk result (spec.HasCounts counts.new (before ++ node ∷ [])) }
{
    let mut node = node;
    let first = if node.block == BlockId::Kernel {
        0
    } else {
        kernel
    };
    node.number = first.saturating_add(count_one(counts, node.block)?);
    all.push(node)?;
    Ok(())
}

/// The nodes with their numbers.
pub fn numbered_nodes(
    alloc: Global,
    nodes: List<DeclaredNode>,
) -> Result<List<DeclaredNode>, AllocError>
    ensures { IfOk result (λ all. all ≡ spec.numbered_nodes nodes) }
{
    let kernel = number_at(count_in(nodes.as_slice(), BlockId::Kernel));
    let mut counts = Counts::new(alloc);
    let mut all = List::new(alloc);
    for node in nodes.into_vec() {
        add_numbered(&mut all, &mut counts, kernel, node)?;
    }
    Ok(all)
}
