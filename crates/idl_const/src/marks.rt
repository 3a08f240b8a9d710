//! Given values that are entered and left.

ghost use Rattle.std.specs.Prelude.{◌≡◌, slice_set};
ghost use Rattle.check_model.specs.Evaluation.{is_free};
ghost use Rattle.idl_const.specs.Marks.{EntersGiven};

use crate::faults::{ConstFault, ConstStop};
use crate::progress::Progress;
use idl_token::Place;

/// The given value of some number is under evaluation from now on, for who looks from a place.
pub(crate) fn enter(work: &mut Progress, which: u32, at: Place) -> Result<(), ConstStop>
    ensures values { work.new.values ≡ work.old.values }
    ensures entered { EntersGiven which at result work.old.free.items work.new.free.items }
{
    if work.steps == 0 {
        return Err(ConstStop {
            at,
            fault: ConstFault::NoMemory,
        });
    }
    work.steps -= 1;
    if !is_free(&work.free, which) {
        return Err(ConstStop {
            at,
            fault: ConstFault::ConstCycle,
        });
    }
    mark(&mut work.free, which, false);
    Ok(())
}

/// Whether the given value of some number isn't under evaluation.
fn is_free(free: &Vec<bool>, which: u32) -> bool
    ensures { result ≡ is_free free.now.items which }
{
    let which = which as usize;
    which < free.len() && free[which]
}

/// Marks the given value of some number.
pub(crate) fn mark(free: &mut Vec<bool>, which: u32, is: bool)
    ensures { free.new.items ≡ slice_set free.old.items which is }
{
    let which = which as usize;
    if which < free.len() {
        free[which] = is;
    }
}
