//! The inverse of a shape.

ghost use Rattle.std.specs.Prelude.{◌≡◌, IfOk};
ghost use Rattle.hs_overlap.specs.Inverses.{inverse_edges, inverse_nodes};
ghost use Rattle.hs_types.specs.Pattern.{inverse_mark};
ghost use Rattle.hs_types.specs.RuleForm as spec;

use hs_expr::List;
use hs_types::{Mark, PatternEdge, PatternNode, PatternSlot, Shape};
use std::alloc::{AllocError, Global};

/// The shape with dropped and made exchanged. Slots stay: what was written is written back.
pub fn inverse(alloc: Global, shape: &Shape) -> Result<Shape, AllocError>
    ensures { IfOk result (λ inverse. inverse ≡ spec.inverse shape.now) }
{
    let nodes = inverse_nodes(alloc, shape.nodes.as_slice())?;
    let edges = inverse_edges(alloc, shape.edges.as_slice())?;
    let slots = copied_slots(alloc, shape.slots.as_slice())?;
    Ok(Shape {
        nodes,
        edges,
        slots,
    })
}

fn inverse_mark(mark: Mark) -> Mark
    ensures { result ≡ inverse_mark mark }
{
    match mark {
        Mark::Keep => Mark::Keep,
        Mark::Drop => Mark::Make,
        Mark::Make => Mark::Drop,
    }
}

fn inverse_nodes(alloc: Global, nodes: &[PatternNode]) -> Result<List<PatternNode>, AllocError>
    ensures { IfOk result (λ inverse. inverse ≡ inverse_nodes nodes.now) }
{
    let mut inverse = List::new(alloc);
    for node in nodes {
        inverse.push(PatternNode {
            name: node.name.clone()?,
            class: node.class,
            mark: inverse_mark(node.mark),
        })?;
    }
    Ok(inverse)
}

fn inverse_edges(alloc: Global, edges: &[PatternEdge]) -> Result<List<PatternEdge>, AllocError>
    ensures { IfOk result (λ inverse. inverse ≡ inverse_edges edges.now) }
{
    let mut inverse = List::new(alloc);
    for edge in edges {
        inverse.push(PatternEdge {
            source: edge.source,
            reference: edge.reference,
            target: edge.target,
            mark: inverse_mark(edge.mark),
        })?;
    }
    Ok(inverse)
}

fn copied_slots(alloc: Global, slots: &[PatternSlot]) -> Result<List<PatternSlot>, AllocError>
    ensures { IfOk result (λ copied. copied ≡ slots.now) }
{
    let mut copied = List::new(alloc);
    for slot in slots {
        copied.push(*slot)?;
    }
    Ok(copied)
}
