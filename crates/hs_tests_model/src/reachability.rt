//! Strongly connected components, and cycles.

use hs_expr::List;
use hs_reach::{components, on_cycles, targets_are_vertices};
use std::alloc::{AllocError, Global};
use std::test::Fail;

/// The graph that is written vertex by vertex: `1,2;2;` is of three vertices, of which vertex 0
/// leads to vertices 1 and 2, and vertex 1 to vertex 2.
fn graph(alloc: Global, text: &str) -> Result<List<List<usize>>, AllocError> {
    let mut made = List::new(alloc);
    for row in text.split(';') {
        let mut edges = List::new(alloc);
        for word in row.split(',') {
            if let Ok(vertex) = word.parse::<usize>() {
                edges.push(vertex)?;
            }
        }
        made.push(edges)?;
    }
    Ok(made)
}

/// A `*` for each vertex on a cycle and a `.` for each other one.
fn marks(alloc: Global, graph: &[List<usize>]) -> Result<String, AllocError> {
    let mut text = String::new(alloc);
    if !targets_are_vertices(graph) {
        text.push_str("not whole")?;
        return Ok(text);
    }
    for mark in on_cycles(alloc, graph)?.iter() {
        text.push(if *mark { '*' } else { '.' })?;
    }
    Ok(text)
}

#[test]
fn places_on_cycles_are_marked(rt: HostRuntime) -> Result<(), Fail> {
    let alloc = rt.alloc();
    let cases = [
        ("", "."),
        ("0", "*"),
        ("0;", "*."),
        ("1;", ".."),
        ("1,1;", ".."),
        ("1;0", "**"),
        ("2", "not whole"),
        ("1,2;3;3;", "...."),
        ("1,2;3;3;0", "****"),
        ("1;2;1,3;", ".**."),
        ("1;0,2;3;4;3", "**.**"),
        ("1;2,3;0;1", "****"),
        ("1,2;0;0;0", "***."),
        ("2;2;2,3;", "..*."),
        ("3;0;0;2,1;1", "****."),
        ("5;0;1,4;4;3;1,4", "**.***"),
    ];
    for (text, want) in cases {
        let graph = graph(alloc, text)?;
        let found = marks(alloc, graph.as_slice())?;
        assert!(rt; found.as_str() == want, "{text}: {found}");
    }
    Ok(())
}

#[test]
fn places_that_reach_each_other_have_a_mark_in_common(rt: HostRuntime) -> Result<(), Fail> {
    let alloc = rt.alloc();
    let graph = graph(alloc, "1;0,2;3;4;3")?;
    if !targets_are_vertices(graph.as_slice()) {
        assert!(rt; false);
        return Ok(());
    }
    let marks = components(alloc, graph.as_slice())?;
    assert!(rt; marks.len() == 5);
    assert!(rt; marks.get(0) == marks.get(1));
    assert!(rt; marks.get(1) != marks.get(2));
    assert!(rt; marks.get(2) != marks.get(3));
    assert!(rt; marks.get(3) == marks.get(4));
    assert!(rt; marks.get(0) != marks.get(4));
    Ok(())
}

/// A chain in which each vertex leads to the next one and to the one after that, and the last one
/// to the first where the chain is closed.
fn chain(alloc: Global, count: usize, is_closed: bool) -> Result<List<List<usize>>, AllocError> {
    let mut made = List::new(alloc);
    for vertex in 0..count {
        let mut edges = List::new(alloc);
        if count - vertex > 2 {
            edges.push(vertex + 2)?;
        }
        if count - vertex > 1 {
            edges.push(vertex + 1)?;
        } else if is_closed {
            edges.push(0)?;
        }
        made.push(edges)?;
    }
    Ok(made)
}

fn marked(alloc: Global, graph: &[List<usize>]) -> Result<Option<usize>, AllocError> {
    if !targets_are_vertices(graph) {
        return Ok(None);
    }
    let marks = on_cycles(alloc, graph)?;
    Ok(Some(marks.iter().filter(|mark| **mark).count()))
}

#[test]
fn long_chains_are_quick(rt: HostRuntime) -> Result<(), Fail> {
    let alloc = rt.alloc();
    let open = chain(alloc, 200_000, false)?;
    assert!(rt; marked(alloc, open.as_slice())? == Some(0));
    let closed = chain(alloc, 200_000, true)?;
    assert!(rt; marked(alloc, closed.as_slice())? == Some(200_000));
    Ok(())
}
