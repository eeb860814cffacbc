//! A left side followed by a forbid or require part, seen as one shape.

ghost use Rattle.std.specs.Option.{option_copied};
ghost use Rattle.std.specs.Prelude.{◌≡◌, ◌≤◌, ◌++◌, length, slice_get};
ghost use Rattle.hs_overlap.specs.LeftSide.{whole};

use hs_expr::List;
use hs_types::{Part, PatternEdge, PatternNode, PatternSlot, Shape};
use std::marker::Model;

/// A left side with its marks, and perhaps a forbid or require part.
#[derive(Debug, Drop)]
pub struct Pattern {
    pub shape: Shape,
    /// Its nodes and edges are numbered after those of the shape.
    pub extra: Option<Part>,
}

/// A borrowed shape, and perhaps a part whose numbers go on from the shape's. Contracts see one
/// shape.
#[derive(Drop)]
pub struct Whole<'a> {
    shape: &'a Shape,
    extra: Option<&'a Part>,
}

impl<'a> Model for Whole<'a> {
    ghost use Rattle.std.specs.Option.{option_copied};
    ghost use Rattle.std.specs.Prelude.{◌≤◌, length};
    ghost use Rattle.hs_types.specs.declared.rule.Shape.{Shape};
    ghost use Rattle.hs_overlap.specs.LeftSide.{whole};

    ghost Value = { Shape };

    ghost view = { λ w. whole w.shape.now (option_copied w.extra) };

    ghost invariant = { λ w. (length (whole w.shape.now (option_copied w.extra)).nodes ≤ 65535)
        × (length (whole w.shape.now (option_copied w.extra)).edges ≤ 65535) };
}

impl<'a> Whole<'a> {
    /// The shape with no part.
    pub fn alone(shape: &'a Shape) -> Whole<'a>
        requires nodes { length shape.now.nodes ≤ 65535 }
        requires edges { length shape.now.edges ≤ 65535 }
        ensures { result ≡ shape.now }
    {
        Whole { shape, extra: None }
    }

    /// The pattern as one shape.
    pub fn of(pattern: &'a Pattern) -> Whole<'a>
        requires nodes { length (whole pattern.now.shape pattern.now.extra).nodes ≤ 65535 }
        requires edges { length (whole pattern.now.shape pattern.now.extra).edges ≤ 65535 }
        ensures { result ≡ whole pattern.now.shape pattern.now.extra }
    {
        match &pattern.extra {
            Some(part) => Whole {
                shape: &pattern.shape,
                extra: Some(part),
            },
            None => Whole {
                shape: &pattern.shape,
                extra: None,
            },
        }
    }

    pub fn node_count(&self) -> usize
        ensures { result ≡ length self.now.nodes }
    {
        match self.extra {
            Some(part) => self.shape.nodes.len() + part.nodes.len(),
            None => self.shape.nodes.len(),
        }
    }

    pub fn edge_count(&self) -> usize
        ensures { result ≡ length self.now.edges }
    {
        match self.extra {
            Some(part) => self.shape.edges.len() + part.edges.len(),
            None => self.shape.edges.len(),
        }
    }

    pub fn slot_count(&self) -> usize
        ensures { result ≡ length self.now.slots }
    {
        self.shape.slots.len()
    }

    pub fn node(&self, i: usize) -> Option<&PatternNode>
        ensures { option_copied result ≡ slice_get self.now.nodes i }
    {
        match self.extra {
            Some(part) => item_of_both(&self.shape.nodes, &part.nodes, i),
            None => self.shape.nodes.get(i),
        }
    }

    pub fn edge(&self, x: usize) -> Option<&PatternEdge>
        ensures { option_copied result ≡ slice_get self.now.edges x }
    {
        match self.extra {
            Some(part) => item_of_both(&self.shape.edges, &part.edges, x),
            None => self.shape.edges.get(x),
        }
    }

    pub fn slot(&self, k: usize) -> Option<&PatternSlot>
        ensures { option_copied result ≡ slice_get self.now.slots k }
    {
        self.shape.slots.get(k)
    }
}

/// The item at this index of the first list, or of the second, which follows it.
fn item_of_both<'a, T>(first: &'a List<T>, second: &'a List<T>, i: usize) -> Option<&'a T>
    ensures { option_copied result ≡ slice_get (first.now ++ second.now) i }
{
    let count = first.len();
    if i < count {
        first.get(i)
    } else {
        second.get(i - count)
    }
}
