//! A pass over the spots of a program.

ghost use Rattle.std.specs.Prelude.{◌≡◌, ◌↔◌, [], ◌∷◌, Some, IsTrue, IfOk};
ghost use Rattle.idl_include.specs.Program.{Program};
ghost use Rattle.idl_include.specs.Spots.{spots_of};
ghost use Rattle.check_model.specs.Passes.{FindsFault};
ghost use Rattle.idl_names.specs.SpotsIn.{shown_in, spots_in};
ghost use Rattle.check_passes.specs.Faults.{spot_pass};
ghost use Rattle.check_passes.specs.Passed.{ArePassed};

use crate::faults::{CheckFault, CheckKind};
use crate::places::place_of;
use idl_names::SpotIn;
use std::alloc::AllocError;

/// What a pass tests at one spot of a program.
pub trait SpotTest {
    ghost use Rattle.idl_include.specs.Program.{Program};
    ghost use Rattle.check_model.specs.Passes.{Pass};

    ghost pass: { Pass };

    ghost right: { Self → Program → Type 0 };

    /// The kind of the faults that it finds.
    fn kind(&self) -> CheckKind
        ensures { spot_pass result ≡ Some pass };

    /// Whether a spot is at fault.
    fn finds(&self, spot: &SpotIn<'_>) -> Result<bool, AllocError>
        ensures { (program : Program) → right self.now program
            → IfOk result (λ found. IsTrue found ↔ FindsFault pass program spot.now.file (shown_in spot.now.shown)) };
}

/// The first fault that a test finds among the spots of a program.
pub fn first_fault<T: SpotTest>(test: &T, spots: &[SpotIn<'_>]) -> Result<(), CheckFault>
    ensures { (program : Program) → T.right test.now program → spots_in spots.now ≡ spots_of program → ArePassed program (T.pass ∷ []) result }
{
    let kind = test.kind();
    for spot in spots {
        let found = test.finds(spot)?;
        if found {
            return Err(CheckFault {
                file: spot.file,
                at: place_of(spot),
                kind,
            });
        }
    }
    Ok(())
}
