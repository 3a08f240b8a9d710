//! The checks of what the search found.
ghost use Rattle.std.specs.Prelude.{◌≡◌, ◌<◌, ◌≤◌, ℕ, nat_le, nat_lt, map, slice_index, slice_index_or, length, [], IsTrue, MatchOption};
ghost use Rattle.std.specs.List.{list_all, Contains};
ghost use Rattle.graph_cycles.specs.Walks.{Walk, IsEdge};
ghost use Rattle.graph_cycles.specs.Certified.{RisesNowhere, FallsBefore, LeadsNoHigher, LeadsLower};

// The label of a node by its place; 0 where it has none.
fn label_at(labels: &[u32], node: usize) -> u32
    ensures { result ≡ slice_index labels.now node }
{
    match labels.get(node) {
        Some(label) => *label,
        None => 0,
    }
}

// Whether no edge of a row leads to a label above this one.
fn leads_no_higher(labels: &[u32], bound: u32, row: &[u32]) -> bool
    ensures { result ≡ list_all (λ node. nat_le (slice_index labels.now node) bound) row.now }
{
    row.iter()
        .all(|node| label_at(labels, *node as usize) <= bound)
}

// Whether each edge of a row leads to a label below this one.
fn leads_lower(labels: &[u32], bound: u32, row: &[u32]) -> bool
    ensures { result ≡ list_all (λ node. nat_lt (slice_index labels.now node) bound) row.now }
{
    row.iter()
        .all(|node| label_at(labels, *node as usize) < bound)
}

/// Whether no label rises along an edge.
pub(crate) fn rises_nowhere(graph: &[Vec<u32>], labels: &[u32]) -> bool
    ensures { IsTrue result → RisesNowhere (map (λ row. row.items) graph.now) labels.now }
{
    for node in 0..graph.len() {
        if !leads_no_higher(labels, label_at(labels, node), graph[node].as_slice()) {
            return false;
        }
    }
    true
}

/// The first node with an edge along which its label doesn't fall.
pub(crate) fn first_level(graph: &[Vec<u32>], labels: &[u32]) -> Option<usize>
    ensures { MatchOption result ((count : ℕ) → FallsBefore (map (λ row. row.items) graph.now) labels.now count) (λ node. FallsBefore (map (λ row. row.items) graph.now) labels.now node) }
{
    for node in 0..graph.len() {
        if !leads_lower(labels, label_at(labels, node), graph[node].as_slice()) {
            return Some(node);
        }
    }
    None
}

// Whether an edge leads from one node to another.
fn is_edge(graph: &[Vec<u32>], from: u32, to: u32) -> bool
    ensures { IsTrue result → IsEdge (map (λ row. row.items) graph.now) from to }
{
    match graph.get(from as usize) {
        Some(row) => row.as_slice().contains(&to),
        None => false,
    }
}

/// Whether edges lead from a node over these and back to it.
pub(crate) fn is_cycle(graph: &[Vec<u32>], node: u32, between: &[u32]) -> bool
    ensures { IsTrue result → Walk (map (λ row. row.items) graph.now) node between.now node }
{
    let mut last = node;
    for next in between.iter() {
        if !is_edge(graph, last, *next) {
            return false;
        }
        last = *next;
    }
    is_edge(graph, last, node)
}
