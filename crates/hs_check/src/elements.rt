//! What nodes and edges mean, part by part of a rule.

ghost use Rattle.std.specs.Prelude.{◌≡◌, ◌++◌, ◌∷◌, [], IfOk, OnOk, option_copied};
ghost use Rattle.hs_faults.specs.Marks.{mark_meant};
ghost use Rattle.hs_faults.specs.Names.{node_named};
ghost use Rattle.hs_check.specs.Elements as spec;

use crate::parameters::class_meant;
use hs_expr::List;
use hs_faults::statements::{CheckedStatement, StatementKind};
use hs_faults::{BlockId, DeclaredNode, class_number, feature_named, same_block};
use hs_text::Mark as WrittenMark;
use hs_types::{FeatureNo, Mark, Meta, PatternEdge, PatternNode};
use std::alloc::{AllocError, Global};

fn mark_meant(mark: WrittenMark) -> Mark
    ensures { result ≡ mark_meant mark }
{
    match mark {
        WrittenMark::Preserve => Mark::Keep,
        WrittenMark::Create => Mark::Make,
        WrittenMark::Delete => Mark::Drop,
    }
}

fn node_meant(meta: &Meta, node: &DeclaredNode) -> Result<PatternNode, AllocError>
    ensures { IfOk result (λ meant. meant ≡ spec.node_meant meta.now node.now) }
{
    Ok(PatternNode {
        name: node.name.text.clone()?,
        class: class_meant(meta, &node.class.text),
        mark: mark_meant(node.mark),
    })
}

/// Adds the node, if this part of the rule declares it.
fn add_node(
    meta: &Meta,
    nodes: &mut List<PatternNode>,
    node: &DeclaredNode,
    part: BlockId,
) -> Result<(), AllocError>
    ensures { OnOk result (nodes.new ≡ nodes.old ++ spec.nodes_in meta.now (node.now ∷ []) part) }
{
    if same_block(part, node.block) {
        nodes.push(node_meant(meta, node)?)?;
    }
    Ok(())
}

/// The nodes that one part of the rule declares.
pub fn nodes_in(
    alloc: Global,
    meta: &Meta,
    declared: &[DeclaredNode],
    part: BlockId,
) -> Result<List<PatternNode>, AllocError>
    ensures { IfOk result (λ nodes. nodes ≡ spec.nodes_in meta.now declared.now part) }
{
    let mut nodes = List::new(alloc);
    for node in declared {
        add_node(meta, &mut nodes, node, part)?;
    }
    Ok(nodes)
}

/// The node of this name.
fn node_named<'a>(declared: &'a [DeclaredNode], name: &str) -> Option<&'a DeclaredNode>
    ensures { option_copied result ≡ node_named declared.now name.now }
{
    declared.iter().find(|node| name == node.name.text.as_str())
}

/// The number of the node of this name.
pub fn node_number(declared: &[DeclaredNode], name: &str) -> u16
    ensures { result ≡ spec.node_number declared.now name.now }
{
    match node_named(declared, name) {
        Some(node) => node.number,
        None => 0,
    }
}

/// The feature of this name in the class of the node.
fn node_feature(meta: &Meta, name: &str, node: &DeclaredNode) -> Option<FeatureNo>
    ensures { result ≡ spec.node_feature meta.now name.now node.now }
{
    let class = class_number(meta, &node.class.text)?;
    feature_named(meta, class, name)
}

/// The feature of this name in the class of the node of that name.
pub fn feature_number(meta: &Meta, declared: &[DeclaredNode], node: &str, name: &str) -> FeatureNo
    ensures { result ≡ spec.feature_number meta.now declared.now node.now name.now }
{
    match node_named(declared, node) {
        Some(node) => node_feature(meta, name, node).unwrap_or(0),
        None => 0,
    }
}

fn edge_meant(
    meta: &Meta,
    declared: &[DeclaredNode],
    mark: Mark,
    source: &str,
    target: &str,
    reference: &str,
) -> PatternEdge
    ensures { result ≡ spec.edge_meant meta.now declared.now mark source.now target.now
        reference.now }
{
    PatternEdge {
        source: node_number(declared, source),
        reference: feature_number(meta, declared, source, reference),
        target: node_number(declared, target),
        mark,
    }
}

/// The edge that the statement means, if it is an edge of this part of the rule.
fn edge_in(
    meta: &Meta,
    declared: &[DeclaredNode],
    part: BlockId,
    checked: &CheckedStatement<'_>,
) -> Option<PatternEdge>
    ensures { result ≡ spec.edge_in meta.now declared.now part checked.now }
{
    match checked.statement.kind {
        StatementKind::Edge {
            mark,
            source,
            target,
            reference,
        } if same_block(part, checked.statement.block) => Some(edge_meant(
            meta,
            declared,
            mark_meant(mark),
            source.text.as_str(),
            target.text.as_str(),
            reference.text.as_str(),
        )),
        _ => None,
    }
}

/// Adds the edge that the statement means, if it is an edge of this part of the rule.
fn add_edge(
    meta: &Meta,
    declared: &[DeclaredNode],
    edges: &mut List<PatternEdge>,
    statement: &CheckedStatement<'_>,
    part: BlockId,
) -> Result<(), AllocError>
    ensures { OnOk result (edges.new
        ≡ edges.old ++ spec.edges_of_part meta.now declared.now (statement.now ∷ []) part) }
{
    if let Some(edge) = edge_in(meta, declared, part, statement) {
        edges.push(edge)?;
    }
    Ok(())
}

/// The edges of one part of the rule, which declares these nodes.
pub fn edges_of_part(
    alloc: Global,
    meta: &Meta,
    declared: &[DeclaredNode],
    statements: &[CheckedStatement<'_>],
    part: BlockId,
) -> Result<List<PatternEdge>, AllocError>
    ensures { IfOk result
        (λ edges. edges ≡ spec.edges_of_part meta.now declared.now statements.now part) }
{
    let mut edges = List::new(alloc);
    for statement in statements {
        add_edge(meta, declared, &mut edges, statement, part)?;
    }
    Ok(edges)
}
