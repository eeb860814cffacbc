//! The least match.

use hs_expr::{List, Text};
use hs_match::{first_match, is_in_order, is_small};
use hs_tests_model::graph_of;
use hs_types::{Mark, Match, PatternEdge, PatternNode, Rule, Shape};
use std::alloc::{AllocError, Global};

/// A bundle whose class 1 is below the class 0, which has the reference 0 to the class 2, with
/// objects of the classes 2, 0, 1 and 2. Two parallel edges lead from object 1 to object 3, one
/// from object 2 to each of the objects 3 and 0.
const JOINED: &str =
    r#"{"meta":{"classes":[{"name":"A","references":[{"name":"to","target":"C","upper":-1}]},{"name":"B","supers":["A"]},{"name":"C"}]},"graph":[{"name":"c","class":"C"},{"name":"a","class":"A","refs":{"to":["d","d"]}},{"name":"b","class":"B","refs":{"to":["d","c"]}},{"name":"d","class":"C"}]}"#;

/// The same classes, and one edge from an object of class 0 to one of class 2.
const ONE_EDGE: &str =
    r#"{"meta":{"classes":[{"name":"A","references":[{"name":"to","target":"C","upper":-1}]},{"name":"C"}]},"graph":[{"name":"a","class":"A","refs":{"to":["c"]}},{"name":"c","class":"C"}]}"#;

/// Two such edges.
const TWO_EDGES: &str =
    r#"{"meta":{"classes":[{"name":"A","references":[{"name":"to","target":"C","upper":-1}]},{"name":"C"}]},"graph":[{"name":"a","class":"A","refs":{"to":["c","c"]}},{"name":"c","class":"C"}]}"#;

/// No object.
const EMPTY: &str = r#"{"meta":{"classes":[]}}"#;

/// A rule that keeps nodes of these classes and edges between them.
fn rule_of(alloc: Global, classes: &[u16], joins: &[(u16, u16)]) -> Result<Rule, AllocError> {
    let name = Text::from_str(alloc, "rule")?;
    let shape = shape_of(alloc, classes, joins)?;
    Ok(Rule {
        name,
        params: List::new(alloc),
        shape,
        forbids: List::new(alloc),
        needs: List::new(alloc),
        multis: List::new(alloc),
        wheres: List::new(alloc),
        sets: List::new(alloc),
    })
}

fn shape_of(alloc: Global, classes: &[u16], joins: &[(u16, u16)]) -> Result<Shape, AllocError> {
    let mut nodes = List::new(alloc);
    for class in classes {
        nodes.push(PatternNode {
            name: Text::from_str(alloc, "node")?,
            class: *class,
            mark: Mark::Keep,
        })?;
    }
    let mut edges = List::new(alloc);
    for (source, target) in joins {
        edges.push(PatternEdge {
            source: *source,
            reference: 0,
            target: *target,
            mark: Mark::Keep,
        })?;
    }
    Ok(Shape {
        nodes,
        edges,
        slots: List::new(alloc),
    })
}

/// The images of the nodes and of the edges, where they are these.
fn is(found: &Option<Match>, nodes: &[u32], edges: &[u32]) -> bool {
    match found {
        Some(found) => found.nodes.as_slice() == nodes && found.edges.as_slice() == edges,
        None => false,
    }
}

/// Whether the least match of the nodes and edges, in the graph of the bundle, is this one.
fn finds(
    alloc: Global,
    bundle: &str,
    pattern: (&[u16], &[(u16, u16)]),
    want: (&[u32], &[u32]),
) -> Result<bool, AllocError> {
    let Some(graph) = graph_of(alloc, bundle) else {
        return Ok(false);
    };
    let rule = rule_of(alloc, pattern.0, pattern.1)?;
    if is_in_order(&graph) && is_small(&rule.shape) && rule.only_adds() {
        let found = first_match(alloc, graph.meta(), &graph, &rule)?;
        Ok(is(&found, want.0, want.1))
    } else {
        Ok(false)
    }
}

#[test]
fn finds_the_least(rt: HostRuntime) -> Result<(), AllocError> {
    assert!(rt; finds(rt.alloc(), JOINED, (&[0, 2], &[(0, 1)]), (&[1, 3], &[0]))?);
    assert!(rt; finds(rt.alloc(), JOINED, (&[2, 0], &[(1, 0)]), (&[0, 2], &[3]))?);
    Ok(())
}

#[test]
fn takes_nothing_twice(rt: HostRuntime) -> Result<(), AllocError> {
    let twice: (&[u16], &[(u16, u16)]) = (&[0, 1], &[(0, 1), (0, 1)]);
    assert!(rt; !finds(rt.alloc(), ONE_EDGE, twice, (&[0, 1], &[0, 0]))?);
    assert!(rt; finds(rt.alloc(), TWO_EDGES, twice, (&[0, 1], &[0, 1]))?);
    Ok(())
}

#[test]
fn matches_nothing_by_nothing(rt: HostRuntime) -> Result<(), AllocError> {
    assert!(rt; finds(rt.alloc(), EMPTY, (&[], &[]), (&[], &[]))?);
    Ok(())
}
