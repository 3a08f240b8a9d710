//! The test of functions that are given twice.

ghost use Rattle.std.specs.Prelude.{◌↔◌, map, IsTrue};
ghost use Rattle.idl_include.specs.Program.{Program};
ghost use Rattle.idl_include.specs.Cycles.{Inherits};
ghost use Rattle.idl_include.specs.DeclaredIn.{function_in};
ghost use Rattle.check_model.specs.Passes.{IsRepeatedFunction};

use crate::faults::CheckKind;
use crate::pass::SpotTest;
use idl_names::{FunctionSpot, ShownIn, SpotIn};
use std::alloc::AllocError;

/// Who knows which functions a service inherits.
pub trait Lineage {
    ghost use Rattle.idl_include.specs.Program.{Program};

    ghost right: { Self → Program → Type 0 };

    /// Whether the service of some number inherits a function of this name.
    fn inherits(&self, service: u32, name: &[u8]) -> bool
        ensures { (program : Program) → right self.now program → IsTrue result ↔ Inherits program service name.now };
}

/// Finds functions with the name of one before, or of one that the service inherits.
#[derive(Drop)]
pub(crate) struct RepeatedFunctions<'a, L: Lineage> {
    /// What services inherit.
    pub(crate) lineage: &'a L,
}

impl<'a, L: Lineage> SpotTest for RepeatedFunctions<'a, L> {
    ghost use Rattle.check_model.specs.Passes.{duplicate_function};

    ghost pass = { duplicate_function };

    ghost right = { λ t program. L.right t.lineage.now program };

    fn kind(&self) -> CheckKind {
        CheckKind::DuplicateFunction
    }

    fn finds(&self, spot: &SpotIn<'_>) -> Result<bool, AllocError> {
        match spot.shown {
            ShownIn::Function(shown) => Ok(is_repeated(self.lineage, &shown)),
            _ => Ok(false),
        }
    }
}

/// Whether a function has the name of one before, or of one that the service inherits.
#[tactic(auto, unfolding(idl_include::specs::DeclaredIn::function_in))]
fn is_repeated<L: Lineage>(lineage: &L, shown: &FunctionSpot<'_>) -> bool
    ensures { (program : Program) → L.right lineage.now program → IsTrue result
        ↔ IsRepeatedFunction program shown.now.service (map function_in shown.now.before.now) (function_in shown.now.function.now).name.text }
{
    if shown.repeated {
        return true;
    }
    lineage.inherits(shown.service, shown.function.name.text.as_slice())
}
