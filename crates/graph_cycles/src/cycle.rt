//! The way from a node back to it, over nodes of its label.

use crate::numbers::{at, put};
use std::alloc::{AllocError, Global};

// The row of a node; empty where it has none.
fn row_of(graph: &[Vec<u32>], node: u32) -> &[u32] {
    match graph.get(node as usize) {
        Some(row) => row.as_slice(),
        None => &[],
    }
}

// Whether a node has this label, and wasn't met before: then it is met from another one.
fn is_new(parents: &mut [u32], labels: &[u32], label: u32, node: u32, parent: u32) -> bool {
    if at(labels, node) != label {
        return false;
    }
    if at(parents, node) != u32::MAX {
        return false;
    }
    put(parents, node, parent);
    true
}

// Each new node of the label to which a row leads is met from this one. Tells whether one leads to `goal`.
fn spread(
    row: &[u32],
    labels: &[u32],
    node: u32,
    goal: u32,
    parents: &mut [u32],
    queue: &mut Vec<u32>,
) -> Result<bool, AllocError> {
    let label = at(labels, goal);
    for next in row.iter() {
        if *next == goal {
            return Ok(true);
        }
        if is_new(parents, labels, label, *next, node) {
            queue.push(*next)?;
        }
    }
    Ok(false)
}

// The node from which an edge leads to `goal`, as the queue comes to it.
fn last_node(
    graph: &[Vec<u32>],
    labels: &[u32],
    goal: u32,
    parents: &mut [u32],
    queue: &mut Vec<u32>,
) -> Result<u32, AllocError> {
    for place in 0..graph.len() {
        let Some(node) = queue.as_slice().get(place).copied() else {
            return Ok(goal);
        };
        if spread(row_of(graph, node), labels, node, goal, parents, queue)? {
            return Ok(node);
        }
    }
    Ok(goal)
}

// The same from a queue that holds `goal` alone.
fn last_by(
    alloc: Global,
    graph: &[Vec<u32>],
    labels: &[u32],
    goal: u32,
    parents: &mut [u32],
) -> Result<u32, AllocError> {
    let mut queue = vec![in alloc; goal; 1]?;
    last_node(graph, labels, goal, parents, &mut queue)
}

// Appends the nodes from `last` back to `goal`, which is left out, by their parents.
fn put_way(way: &mut Vec<u32>, parents: &[u32], goal: u32, last: u32) -> Result<(), AllocError> {
    let mut node = last;
    for _ in 0..parents.len() {
        if node == goal {
            break;
        }
        way.push(node)?;
        node = at(parents, node);
    }
    Ok(())
}

// The nodes from `goal`, which is left out, to `last`.
fn unwound(alloc: Global, parents: &[u32], goal: u32, last: u32) -> Result<Vec<u32>, AllocError> {
    let mut way = Vec::new(alloc);
    match put_way(&mut way, parents, goal, last) {
        Ok(()) => {
            way.as_mut_slice().reverse();
            Ok(way)
        }
        Err(fault) => Err(fault),
    }
}

/// The nodes over which edges lead from a node back to it, as far as they are found.
pub(crate) fn way_back(
    alloc: Global,
    graph: &[Vec<u32>],
    labels: &[u32],
    goal: u32,
) -> Result<Vec<u32>, AllocError> {
    let mut parents = vec![in alloc; u32::MAX; graph.len()]?;
    match last_by(alloc, graph, labels, goal, parents.as_mut_slice()) {
        Ok(last) => unwound(alloc, parents.as_slice(), goal, last),
        Err(fault) => Err(fault),
    }
}
