//! The least valid match of a rule that only adds.

ghost use Rattle.std.specs.Prelude.{◌≡◌, ◌≤◌, ◌+◌, [], take, drop, length, Option, IfOk, IfSome, IfNone};
ghost use Rattle.std.specs.Option.{is_some};
ghost use Rattle.hs_types.specs.declared.matching.Match.{Match};
ghost use Rattle.hs_search.specs.Choice.{IsChoice, IsLeastList, IsNone};
ghost use Rattle.hs_types.specs.Pattern.{left_nodes, left_edges};
ghost use Rattle.hs_types.specs.ValidMatch.{IsFirst};
ghost use Rattle.hs_match.specs.Extending.{AreImages};
ghost use Rattle.hs_types.specs.Arguments.{no_args};
ghost use Rattle.hs_types.specs.Additions.{OnlyAdds};
ghost use Rattle.hs_match.specs.FirstMatch.{InOrder, IsSmall};
ghost use Rattle.hs_match.specs.Kernel.{kernel_search};

use crate::Extending;
use hs_expr::List;
use hs_search::{Numbers, least};
use hs_types::{ListGraph, Match, Meta, Rule, Shape, count_left_nodes};
use std::alloc::{AllocError, Global};

/// The least valid match of a rule that only adds, without arguments.
pub fn first_match(
    alloc: Global,
    meta: &Meta,
    graph: &ListGraph,
    rule: &Rule,
) -> Result<Option<Match>, AllocError>
    requires in_order { InOrder graph.now.graph }
    requires small { IsSmall rule.now.shape }
    requires only_adds { OnlyAdds rule.now }
    ensures { IfOk result (IsFirst meta.now graph.now.graph rule.now no_args) }
{
    match first_images(meta, graph, &rule.shape) {
        Some(found) => Ok(Some(match_of(alloc, rule, &found)?)),
        None => Ok(None),
    }
}

/// Whether some match of a rule that only adds is valid. It takes no memory; so there always is a
/// least valid match, or none.
pub fn is_applicable(meta: &Meta, graph: &ListGraph, rule: &Rule) -> bool
    requires in_order { InOrder graph.now.graph }
    requires small { IsSmall rule.now.shape }
    requires only_adds { OnlyAdds rule.now }
    ensures { (answer : Option Match) × IsFirst meta.now graph.now.graph rule.now no_args answer
        × (result ≡ is_some answer) }
{
    first_images(meta, graph, &rule.shape).is_some()
}

/// The images of the least plain match of a shape.
fn first_images(meta: &Meta, graph: &ListGraph, shape: &Shape) -> Option<Numbers>
    requires in_order { InOrder graph.now.graph }
    requires small { IsSmall shape.now }
    ensures least { IfSome result (λ found. IsLeastList
        (IsChoice (length (left_nodes shape.now.nodes) + length (left_edges shape.now.edges))
        (AreImages (kernel_search meta.now graph.now.graph shape.now))) found.items) }
    ensures none { IfNone result (IsNone
        (IsChoice (length (left_nodes shape.now.nodes) + length (left_edges shape.now.edges))
        (AreImages (kernel_search meta.now graph.now.graph shape.now)))) }
{
    let nodes = shape.nodes.as_slice();
    let edges = shape.edges.as_slice();
    least(&Extending::new(meta, graph, &[], &[], &[], nodes, edges))
}

/// The match with these images, without copies.
fn match_of(alloc: Global, rule: &Rule, images: &Numbers) -> Result<Match, AllocError>
    requires { length (left_nodes rule.now.shape.nodes) ≤ length images.now.items }
    ensures { IfOk result (λ found. found ≡ record {
      nodes = take (length (left_nodes rule.now.shape.nodes)) images.now.items;
      edges = drop (length (left_nodes rule.now.shape.nodes)) images.now.items;
      copies = [];
    }) }
{
    let count = count_left_nodes(rule.shape.nodes.as_slice());
    let (nodes, edges) = images.as_slice().split_at(count);
    Ok(Match {
        nodes: list_of(alloc, nodes)?,
        edges: list_of(alloc, edges)?,
        copies: List::new(alloc),
    })
}

fn list_of(alloc: Global, numbers: &[u32]) -> Result<List<u32>, AllocError>
    ensures { IfOk result (λ list. list ≡ numbers.now) }
{
    Ok(List::from_vec(Vec::from_slice(alloc, numbers)?))
}
