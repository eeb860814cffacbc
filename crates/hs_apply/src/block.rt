//! What a kernel or a copy is to a plan.

ghost use Rattle.std.specs.Prelude.{◌≡◌, ◌++◌, IfOk, length, take, slice_get, option_copied};
ghost use Rattle.hs_types.specs.Pattern.{is_make, made_nodes, node_is};
ghost use Rattle.hs_types.specs.Plan as plan;
ghost use Rattle.hs_types.specs.PlainMatch.{image, kernel_of};
ghost use Rattle.hs_apply.specs.Blocks as spec;
ghost use Rattle.hs_apply.specs.Blocks.{block_images, block_nodes};

use crate::counting::added;
use hs_types::{
    EdgeNo, End, Extension, Match, Multi, ObjectNo, PatternNode, Rule, SetItem, Shape, image_of,
};
use std::alloc::AllocError;
use std::marker::Model;

/// What a kernel or a copy is to a plan: its shape, its sets and its match. A copy's nodes and
/// images are numbered after those of the kernel, its base; a kernel's base is empty.
#[derive(Drop)]
pub struct Block<'a> {
    base: &'a [PatternNode],
    base_images: &'a [ObjectNo],
    shape: &'a Shape,
    sets: &'a [SetItem],
    images: &'a [ObjectNo],
    edge_images: &'a [EdgeNo],
}

impl<'a> Model for Block<'a> {
    ghost use Rattle.std.specs.Coded.{codes};
    ghost use Rattle.hs_expr.specs.contracts.expr.Expr as expr;
    ghost use Rattle.hs_apply.specs.Blocks as spec;

    ghost Value = { spec.Block };

    ghost coded = { Prim.hlevel (codes, expr.the_row.coded) };

    ghost view = { λ block. record {
      base = block.base.now;
      base_images = block.base_images.now;
      shape = block.shape.now;
      sets = block.sets.now;
      found = record { nodes = block.images.now; edges = block.edge_images.now };
    } };
}

impl<'a> Block<'a> {
    pub fn of_kernel(rule: &'a Rule, found: &'a Match) -> Block<'a>
        ensures { result ≡ spec.kernel_block rule.now found.now }
    {
        Block {
            base: &[],
            base_images: &[],
            shape: &rule.shape,
            sets: rule.sets.as_slice(),
            images: found.nodes.as_slice(),
            edge_images: found.edges.as_slice(),
        }
    }

    pub fn of_copy(
        rule: &'a Rule,
        kernel: &'a Match,
        multi: &'a Multi,
        found: &'a Extension,
    ) -> Block<'a>
        ensures { result ≡ spec.copy_block rule.now (kernel_of kernel.now)
            (record { multi = multi.now; found = found.now }) }
    {
        Block {
            base: rule.shape.nodes.as_slice(),
            base_images: kernel.nodes.as_slice(),
            shape: &multi.shape,
            sets: multi.sets.as_slice(),
            images: found.nodes.as_slice(),
            edge_images: found.edges.as_slice(),
        }
    }

    pub fn base(&self) -> &'a [PatternNode]
        ensures { result.now ≡ self.now.base }
    {
        self.base
    }

    pub fn base_images(&self) -> &'a [ObjectNo]
        ensures { result.now ≡ self.now.base_images }
    {
        self.base_images
    }

    pub fn shape(&self) -> &'a Shape
        ensures { result.now ≡ self.now.shape }
    {
        self.shape
    }

    pub fn sets(&self) -> &'a [SetItem]
        ensures { result.now ≡ self.now.sets }
    {
        self.sets
    }

    /// The images of the block's own left nodes.
    pub fn images(&self) -> &'a [ObjectNo]
        ensures { result.now ≡ self.now.found.nodes }
    {
        self.images
    }

    /// The images of the block's own left edges.
    pub fn edge_images(&self) -> &'a [EdgeNo]
        ensures { result.now ≡ self.now.found.edges }
    {
        self.edge_images
    }

    /// Whether the node of this number is made.
    pub fn is_made(&self, node: u16) -> bool
        ensures { result ≡ node_is is_make (block_nodes self.now) node }
    {
        is_made(self.base, self.shape.nodes.as_slice(), node)
    }

    /// The image of the node of this number.
    pub fn image(&self, node: u16) -> ObjectNo
        ensures { result ≡ image (block_nodes self.now) (block_images self.now) node }
    {
        let nodes = self.shape.nodes.as_slice();
        image_of(self.base, nodes, self.base_images, self.images, node)
    }

    /// The object of the node of this number, where the copies before the block make `count`
    /// objects. It is out of memory where these are more than 32 bits count.
    pub fn end(&self, count: u32, node: u16) -> Result<End, AllocError>
        ensures { IfOk result (λ end. end ≡ spec.block_end self.now count node) }
    {
        let nodes = self.shape.nodes.as_slice();
        if usize::from(node) < self.base.len() {
            end_of(&[], self.base, &[], self.base_images, 0, node)
        } else {
            end_of(self.base, nodes, self.base_images, self.images, count, node)
        }
    }
}

/// The object of a node: the one that is made for it, after `count` further ones, or its image.
fn end_of(
    base: &[PatternNode],
    nodes: &[PatternNode],
    base_images: &[ObjectNo],
    images: &[ObjectNo],
    count: u32,
    node: u16,
) -> Result<End, AllocError>
    ensures { IfOk result (λ end. end ≡ plan.end_after count
        (plan.end_of (base.now ++ nodes.now) (base_images.now ++ images.now) node)) }
{
    if is_made(base, nodes, node) {
        let place = added(made_before(base, nodes, node), count)?;
        Ok(End::New(place))
    } else {
        Ok(End::Old(image_of(base, nodes, base_images, images, node)))
    }
}

fn is_made(base: &[PatternNode], nodes: &[PatternNode], node: u16) -> bool
    ensures { result ≡ node_is is_make (base.now ++ nodes.now) node }
{
    match node_at(base, nodes, node) {
        Some(node) => node.mark.is_make(),
        None => false,
    }
}

/// The node of this number, where the nodes are numbered after those of the base.
fn node_at<'a>(
    base: &'a [PatternNode],
    nodes: &'a [PatternNode],
    node: u16,
) -> Option<&'a PatternNode>
    ensures { option_copied result ≡ slice_get (base.now ++ nodes.now) node }
{
    base.iter().chain(nodes.iter()).nth(usize::from(node))
}

/// How many made nodes come before this one.
fn made_before(base: &[PatternNode], nodes: &[PatternNode], node: u16) -> u32
    ensures { result ≡ length (made_nodes (take node (base.now ++ nodes.now))) }
{
    let before = base.iter().chain(nodes.iter()).take(usize::from(node));
    before.filter(|node| node.mark.is_make()).count() as u32
}
