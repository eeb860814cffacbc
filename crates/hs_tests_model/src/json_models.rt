//! Graphs that are written.

use crate::model::{BANK, graph_of};
use hs_expr::Text;
use hs_json_model::{with_graph, write_graph};
use hs_types::{Edge, EdgeNo, FeatureNo, ListGraph, ObjectNo};
use std::alloc::Global;

/// The graph over the bank's metamodel that this text of an object has at `graph`.
fn read(alloc: Global, text: &str) -> Option<ListGraph> {
    let members = text.strip_prefix('{')?;
    let bundle = format!(in alloc; "{{\"meta\":{BANK},{members}").ok()?;
    graph_of(alloc, bundle.as_str())
}

/// The text of the graph that is read of this text.
fn rewritten(alloc: Global, text: &str) -> Option<Text> {
    let graph = read(alloc, text)?;
    write_graph(alloc, graph.meta(), &graph).ok()
}

fn is_rewritten(alloc: Global, text: &str, expected: &str) -> bool {
    match rewritten(alloc, text) {
        Some(written) => written.as_str() == expected,
        None => false,
    }
}

fn edge(number: EdgeNo, source: ObjectNo, reference: FeatureNo, target: ObjectNo) -> Edge {
    Edge {
        number,
        source,
        reference,
        target,
    }
}

/// Whether the graph that is read of this text has these edges.
fn are_read(alloc: Global, text: &str, edges: &[Edge]) -> bool {
    match read(alloc, text) {
        Some(graph) => graph.edges() == edges,
        None => false,
    }
}

/// A text, followed by the graph of one client.
fn written_behind(alloc: Global) -> Option<String> {
    let graph = read(alloc, "{\"graph\":[{\"name\":\"b\",\"class\":\"Client\"}]}")?;
    let text = String::from_str(alloc, "so: ").ok()?;
    with_graph(alloc, text, graph.meta(), &graph).ok()
}

/// Two objects with parallel edges, a loop, inherited features and every kind of value.
const FULL: &str =
    "{\"graph\":[{\"attrs\":{\"name\":\"An\\\"n\"},\"class\":\"Client\",\"name\":\"a\",\"refs\":{\"accounts\":[\"b\",\"b\"],\"link\":[\"b\",\"a\"]}},{\"attrs\":{\"balance\":-2147483648,\"name\":\"\",\"open\":true,\"total\":9223372036854775807},\"class\":\"Account\",\"name\":\"b\",\"refs\":{\"owner\":[\"a\"]}}]}";

#[test]
fn a_written_graph_is_written_the_same_again(rt: HostRuntime) {
    assert!(rt; is_rewritten(rt.alloc(), FULL, FULL));
}

#[test]
fn a_graph_is_written_behind_a_text(rt: HostRuntime) {
    let expected =
        "so: {\"graph\":[{\"attrs\":{\"name\":\"?\"},\"class\":\"Client\",\"name\":\"b\",\"refs\":{}}]}";
    match written_behind(rt.alloc()) {
        Some(text) => assert!(rt; text.as_str() == expected),
        None => assert!(rt; false, "the graph isn't written"),
    }
}

#[test]
fn defaults_are_written(rt: HostRuntime) {
    let short = "{\"graph\":[{\"name\":\"b\",\"class\":\"Account\"}]}";
    let full =
        "{\"graph\":[{\"attrs\":{\"balance\":5,\"name\":\"?\",\"open\":false,\"total\":0},\"class\":\"Account\",\"name\":\"b\",\"refs\":{}}]}";
    assert!(rt; is_rewritten(rt.alloc(), short, full));
}

#[test]
fn edges_are_read_reference_by_reference_in_the_order_of_the_class(rt: HostRuntime) {
    let expected = [
        edge(0, 0, 1, 1),
        edge(1, 0, 1, 0),
        edge(2, 0, 2, 1),
        edge(3, 0, 2, 1),
        edge(4, 1, 6, 0),
    ];
    assert!(rt; are_read(rt.alloc(), FULL, &expected));
}
