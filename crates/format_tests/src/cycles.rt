//! The first node of a graph on a cycle: graphs that tell it, long ones, and random ones beside a plain search.

use graph_cycles::first_on_cycle;
use std::alloc::{AllocError, Global};
use std::mem;
use std::process::Abort;
use std::test::Fail;

/// Graphs with their first node on a cycle. A row has the digits of the nodes to which its node's edges lead; rows are parted by `;`.
const GRAPHS: [(&[u8], Option<u32>); 18] = [
    (b"", None),
    (b";;", None),
    (b"0", Some(0)),
    (b"1;0", Some(0)),
    (b"1;1", Some(1)),
    // A chain, a ring, and a ring behind a chain.
    (b"1;2;3;", None),
    (b"1;2;3;0", Some(0)),
    (b"1;2;3;2", Some(2)),
    (b"3;2;1;3", Some(1)),
    // Forests, and edges that all lead on.
    (b"3;3;3;", None),
    (b";0;0;1;1", None),
    (b"123;23;3;", None),
    // A node on two cycles, and two cycles with a node between them.
    (b"12;0;0", Some(0)),
    (b"1;23;1;1", Some(1)),
    (b";2;13;4;3", Some(1)),
    // Edges to no row.
    (b"9;1", Some(1)),
    (b"9;8;7", None),
    // Several parts, of which one goes round.
    (b"5;0;;4;3;", Some(3)),
];

/// The graph of a text.
fn graph_of(alloc: Global, text: &[u8]) -> Result<Vec<Vec<u32>>, AllocError> {
    let mut graph = Vec::new(alloc);
    let mut row = Vec::new(alloc);
    for byte in text {
        if *byte == b';' {
            graph.push(mem::replace(&mut row, Vec::new(alloc)))?;
        } else {
            row.push(u32::from(byte.wrapping_sub(b'0')))?;
        }
    }
    graph.push(row)?;
    Ok(graph)
}

/// Whether the search finds this in the graph of a text.
fn is_found(alloc: Global, text: &[u8], wanted: Option<u32>) -> Result<bool, AllocError> {
    let graph = graph_of(alloc, text)?;
    Ok(first_on_cycle(alloc, graph.as_slice())? == wanted)
}

#[test]
fn graphs_tell_their_first_node_on_a_cycle(rt: HostRuntime) -> Result<(), Fail> {
    for (text, wanted) in &GRAPHS {
        assert!(rt; is_found(rt.alloc(), text, *wanted)?, "{text:?}");
    }
    Ok(())
}

/// A row of one edge.
fn row_to(alloc: Global, node: u32) -> Result<Vec<u32>, AllocError> {
    let mut row = Vec::new(alloc);
    row.push(node)?;
    Ok(row)
}

/// Nodes of which each leads to the next, and the last one to this.
fn chain(alloc: Global, count: u32, last: u32) -> Result<Vec<Vec<u32>>, AllocError> {
    let mut graph = Vec::new(alloc);
    for next in 1..count {
        graph.push(row_to(alloc, next)?)?;
    }
    graph.push(row_to(alloc, last)?)?;
    Ok(graph)
}

/// What the search finds in a chain of 100,000 nodes whose last leads to this one.
fn found_in_chain(alloc: Global, last: u32) -> Result<Option<u32>, AllocError> {
    let graph = chain(alloc, 100_000, last)?;
    first_on_cycle(alloc, graph.as_slice())
}

#[test]
fn long_chains_are_searched(rt: HostRuntime) -> Result<(), Fail> {
    assert!(rt; found_in_chain(rt.alloc(), 100_000)? == None);
    assert!(rt; found_in_chain(rt.alloc(), 0)? == Some(0));
    assert!(rt; found_in_chain(rt.alloc(), 99_999)? == Some(99_999));
    Ok(())
}

/// The next of numbers that look random.
fn next_number(state: &mut u64) -> u64 {
    *state = state
        .wrapping_mul(6_364_136_223_846_793_005)
        .wrapping_add(1_442_695_040_888_963_407);
    *state / 4_294_967_296
}

/// A row of at most two edges, to nodes from 0 to 8.
fn random_row(alloc: Global, state: &mut u64) -> Result<Vec<u32>, AllocError> {
    let mut row = Vec::new(alloc);
    for _ in 0..next_number(state) % 3 {
        row.push((next_number(state) % 9) as u32)?;
    }
    Ok(row)
}

/// A graph of at most eight nodes.
fn random_graph(alloc: Global, state: &mut u64) -> Result<Vec<Vec<u32>>, AllocError> {
    let mut graph = Vec::new(alloc);
    for _ in 0..next_number(state) % 9 {
        graph.push(random_row(alloc, state)?)?;
    }
    Ok(graph)
}

/// Marks the nodes to which a row leads.
fn mark_row(marks: &mut [bool], row: &[u32]) {
    for node in row {
        if let Some(mark) = marks.get_mut(*node as usize) {
            *mark = true;
        }
    }
}

/// Whether a node is marked.
fn is_marked(marks: &[bool], node: usize) -> bool {
    match marks.get(node) {
        Some(mark) => *mark,
        None => false,
    }
}

/// Marks the nodes to which marked ones lead.
fn mark_behind(marks: &mut [bool], graph: &[Vec<u32>]) {
    for (node, row) in graph.iter().enumerate() {
        if is_marked(marks, node) {
            mark_row(marks, row.as_slice());
        }
    }
}

/// Whether edges lead from a node, which has this row, back to it.
fn leads_back(
    alloc: Global,
    graph: &[Vec<u32>],
    node: usize,
    row: &[u32],
) -> Result<bool, AllocError> {
    let mut marks = vec![in alloc; false; graph.len()]?;
    mark_row(marks.as_mut_slice(), row);
    for _ in 0..graph.len() {
        mark_behind(marks.as_mut_slice(), graph);
    }
    Ok(is_marked(marks.as_slice(), node))
}

/// The first node on a cycle, by a plain search.
fn plain_first(alloc: Global, graph: &[Vec<u32>]) -> Result<Option<u32>, AllocError> {
    for (node, row) in graph.iter().enumerate() {
        if leads_back(alloc, graph, node, row.as_slice())? {
            return Ok(u32::try_from(node).ok());
        }
    }
    Ok(None)
}

/// Whether both searches find the same in a random graph.
fn agree(alloc: Global, state: &mut u64) -> Result<bool, AllocError> {
    let graph = random_graph(alloc, state)?;
    Ok(first_on_cycle(alloc, graph.as_slice())? == plain_first(alloc, graph.as_slice())?)
}

#[test]
fn random_graphs_are_searched_as_plainly(rt: HostRuntime) -> Result<(), Fail> {
    let mut state = 1;
    for _ in 0..1_000 {
        assert!(rt; agree(rt.alloc(), &mut state)?, "{state}");
    }
    Ok(())
}
