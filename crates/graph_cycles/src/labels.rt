//! A label for each node, so that none rises along an edge and nodes of one label lead to one another.

use crate::numbers::{at, put};
use std::alloc::{AllocError, Global};

// The search for strongly connected parts (Pearce), without recursion. A node's number is 0 until it is met; then it tells in which order, from 1, or how
// early a node is to which it leads; and in the end it is its part's, from the greatest but one down.
#[derive(Drop)]
struct Parts {
    // The nodes whose edges were followed, and that have no part yet.
    open: Vec<u32>,
    // The nodes that are being looked at, each with the number at which it was met, and that of its next edge.
    calls: Vec<(u32, u32, usize)>,
    // How many nodes were met.
    met: u32,
    // The number of the next part.
    part: u32,
}

// Takes the last of the open nodes, if it was met after the one with this number.
fn taken(open: &mut Vec<u32>, numbers: &[u32], number: u32) -> Option<u32> {
    match open.as_slice().last().copied() {
        Some(last) if at(numbers, last) >= number => open.pop(),
        _ => None,
    }
}

impl Parts {
    fn meet(&mut self, numbers: &mut [u32], node: u32) -> Result<(), AllocError> {
        self.met = self.met.wrapping_add(1);
        put(numbers, node, self.met);
        self.calls.push((node, self.met, 0))?;
        Ok(())
    }

    // Follows an edge of a node: where it leads is met, and then tells how early one comes back.
    fn follow(
        &mut self,
        numbers: &mut [u32],
        call: (u32, u32, usize),
        next: u32,
    ) -> Result<(), AllocError> {
        let (node, number, edge) = call;
        let earliest = at(numbers, next);
        if earliest == 0 {
            self.calls.push(call)?;
            return self.meet(numbers, next);
        }
        if earliest < at(numbers, node) {
            put(numbers, node, earliest);
        }
        self.calls.push((node, number, edge.wrapping_add(1)))?;
        Ok(())
    }

    // The open nodes that were met after a node become a part with it.
    fn close(&mut self, numbers: &mut [u32], node: u32, number: u32) {
        put(numbers, node, self.part);
        for _ in 0..self.open.len() {
            match taken(&mut self.open, numbers, number) {
                Some(last) => put(numbers, last, self.part),
                None => break,
            }
        }
        self.part = self.part.wrapping_sub(1);
    }

    // A node all of whose edges were followed.
    fn leave(&mut self, numbers: &mut [u32], node: u32, number: u32) -> Result<(), AllocError> {
        if at(numbers, node) == number {
            self.close(numbers, node, number);
            return Ok(());
        }
        self.open.push(node)?;
        Ok(())
    }

    // Goes one step.
    fn step(
        &mut self,
        graph: &[Vec<u32>],
        numbers: &mut [u32],
        call: (u32, u32, usize),
    ) -> Result<(), AllocError> {
        let (node, number, edge) = call;
        match next_node(graph, node, edge) {
            Some(next) => self.follow(numbers, call, next),
            None => self.leave(numbers, node, number),
        }
    }

    // Steps until no node is being looked at.
    fn finish(&mut self, graph: &[Vec<u32>], numbers: &mut [u32]) -> Result<(), AllocError> {
        for _ in 0..u64::MAX {
            match self.calls.pop() {
                Some(call) => self.step(graph, numbers, call)?,
                None => break,
            }
        }
        Ok(())
    }

    // Meets all nodes of a graph.
    fn meet_all(&mut self, graph: &[Vec<u32>], numbers: &mut [u32]) -> Result<(), AllocError> {
        let Ok(count) = u32::try_from(numbers.len()) else {
            return Err(AllocError);
        };
        for root in 0..count {
            if at(numbers, root) == 0 {
                self.meet(numbers, root)?;
                self.finish(graph, numbers)?;
            }
        }
        Ok(())
    }
}

// Where the edge of this number leads.
fn next_node(graph: &[Vec<u32>], node: u32, edge: usize) -> Option<u32> {
    match graph.get(node as usize) {
        Some(row) => row.as_slice().get(edge).copied(),
        None => None,
    }
}

// The nodes get the numbers of their parts.
fn number_parts(alloc: Global, graph: &[Vec<u32>], numbers: &mut [u32]) -> Result<(), AllocError> {
    let mut parts = Parts {
        open: Vec::new(alloc),
        calls: Vec::new(alloc),
        met: 0,
        part: u32::MAX - 1,
    };
    parts.meet_all(graph, numbers)
}

// The greatest number becomes 0, the one below it 1, and so on.
fn turn(numbers: &mut [u32]) {
    for place in 0..numbers.len() {
        numbers[place] = u32::MAX - numbers[place];
    }
}

/// The labels of a graph's nodes: numbers from 1.
pub(crate) fn labels(alloc: Global, graph: &[Vec<u32>]) -> Result<Vec<u32>, AllocError> {
    let mut numbers = vec![in alloc; 0u32; graph.len()]?;
    match number_parts(alloc, graph, numbers.as_mut_slice()) {
        Ok(()) => {
            turn(numbers.as_mut_slice());
            Ok(numbers)
        }
        Err(fault) => Err(fault),
    }
}
