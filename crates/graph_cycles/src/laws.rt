//! What labels show.

ghost use Rattle.std.specs.Prelude.{◌<◌, ◌⊎◌, ℕ, List};
ghost use Rattle.graph_cycles.specs.Walks.{Graph, LeadsTo, OnCycle};
ghost use Rattle.graph_cycles.specs.Certified.{RisesNowhere, FallsBefore};

/// Where no label rises along an edge, nodes along whose edges labels fall lie on no cycle.
pub fn falling_nodes_lie_on_no_cycle()
    ensures { (graph : Graph) (labels : List ℕ) (count : ℕ) → RisesNowhere graph labels → FallsBefore graph labels count → (a : ℕ) → a < count → OnCycle graph a → ⊥ }
{}

/// A node leads to another or it doesn't, and it leads where a node leads to which it leads.
pub fn a_node_leads_to_another_or_not()
    ensures decided { (graph : Graph) (a b : ℕ) → LeadsTo graph a b ⊎ (LeadsTo graph a b → ⊥) }
    ensures on { (graph : Graph) (a m b : ℕ) → LeadsTo graph a m → LeadsTo graph m b → LeadsTo graph a b }
{}
