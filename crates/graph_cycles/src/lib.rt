//! Cycles in directed graphs: the first node that leads to itself.
//!
//! A graph is a row of nodes for each node, by number; `first_on_cycle(alloc, graph.as_slice())` answers the least number of a
//! node from which edges lead back to it, in time that grows with nodes and edges. Edges may lead to numbers that no row
//! has; from these no edge leads on.
//!
//! The search isn't trusted: what it finds is checked, and only that counts.
#![tactic(auto)]

ghost use Rattle.std.specs.Prelude.{◌≡◌, map, IfOk};
ghost use Rattle.graph_cycles.specs.Walks.{OnCycle, IsLowest};

use std::alloc::{AllocError, Global};

mod checks;
mod cycle;
mod labels;
pub mod laws;
mod numbers;

use checks::{first_level, is_cycle, rises_nowhere};
use cycle::way_back;
use labels::labels;

/// The first node, by number, that lies on a cycle.
pub fn first_on_cycle(alloc: Global, graph: &[Vec<u32>]) -> Result<Option<u32>, AllocError>
    ensures { IfOk result (λ found. IsLowest (OnCycle (map (λ row. row.items) graph.now)) found) }
{
    let labels = labels(alloc, graph)?;
    first_by(alloc, graph, labels.as_slice())
}

// The same by labels.
fn first_by(alloc: Global, graph: &[Vec<u32>], labels: &[u32]) -> Result<Option<u32>, AllocError>
    ensures { IfOk result (λ found. IsLowest (OnCycle (map (λ row. row.items) graph.now)) found) }
{
    if !rises_nowhere(graph, labels) {
        return Err(AllocError);
    }
    match first_level(graph, labels) {
        None => Ok(None),
        Some(node) => {
            let Ok(node) = u32::try_from(node) else {
                return Err(AllocError);
            };
            let between = way_back(alloc, graph, labels, node)?;
            if is_cycle(graph, node, between.as_slice()) {
                Ok(Some(node))
            } else {
                Err(AllocError)
            }
        }
    }
}
