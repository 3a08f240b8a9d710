//! The tests of typedefs and services that lead to themselves.

ghost use Rattle.std.specs.Prelude.{◌↔◌, IsTrue, IfOk};
ghost use Rattle.graph_cycles.specs.Walks.{Graph, OnCycle, IsLowest};

use crate::faults::CheckKind;
use crate::pass::SpotTest;
use idl_names::{ShownIn, SpotIn};
use std::alloc::AllocError;

/// Finds typedefs that lead to themselves.
#[derive(Drop)]
pub(crate) struct TypedefCycles {
    /// The least number of one.
    pub(crate) first: Option<u32>,
}

impl SpotTest for TypedefCycles {
    ghost use Rattle.graph_cycles.specs.Walks.{OnCycle, IsLowest};
    ghost use Rattle.idl_include.specs.Cycles.{alias_graph};
    ghost use Rattle.check_model.specs.Passes.{typedef_cycle};

    ghost pass = { typedef_cycle };

    ghost right = { λ t program. IsLowest (OnCycle (alias_graph program)) t.first };

    fn kind(&self) -> CheckKind {
        CheckKind::TypedefCycle
    }

    fn finds(&self, spot: &SpotIn<'_>) -> Result<bool, AllocError> {
        match spot.shown {
            ShownIn::Typedef(number, _) => {
                let found = lies_on_cycle(self.first, number)?;
                Ok(found)
            }
            _ => Ok(false),
        }
    }
}

/// Finds services that extend themselves, directly or not.
#[derive(Drop)]
pub(crate) struct ServiceCycles {
    /// The least number of one.
    pub(crate) first: Option<u32>,
}

impl SpotTest for ServiceCycles {
    ghost use Rattle.graph_cycles.specs.Walks.{OnCycle, IsLowest};
    ghost use Rattle.idl_include.specs.Cycles.{parent_graph};
    ghost use Rattle.check_model.specs.Passes.{service_cycle};

    ghost pass = { service_cycle };

    ghost right = { λ t program. IsLowest (OnCycle (parent_graph program)) t.first };

    fn kind(&self) -> CheckKind {
        CheckKind::ServiceCycle
    }

    fn finds(&self, spot: &SpotIn<'_>) -> Result<bool, AllocError> {
        match spot.shown {
            ShownIn::Service(number, _) => {
                let found = lies_on_cycle(self.first, number)?;
                Ok(found)
            }
            _ => Ok(false),
        }
    }
}

/// Whether a node lies on a cycle, where this one is the first that does. Numbers rise along the spots of a program, so none past
/// the first is asked for; it would be answered as want of memory.
fn lies_on_cycle(first: Option<u32>, number: u32) -> Result<bool, AllocError>
    ensures { (graph : Graph) → IsLowest (OnCycle graph) first → IfOk result (λ found. IsTrue found ↔ OnCycle graph number) }
{
    match first {
        None => Ok(false),
        Some(lowest) => {
            if number > lowest {
                return Err(AllocError);
            }
            if number == lowest {
                return Ok(true);
            }
            Ok(false)
        }
    }
}
