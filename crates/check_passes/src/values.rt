//! The pass over the values that a program gives.

ghost use Rattle.std.specs.Prelude.{◌≡◌, Some, slice_get, MatchResult, OnOk};
ghost use Rattle.thrift_value.specs.TreeOf.{tree_of};
ghost use Rattle.idl_include.specs.Program.{Program};
ghost use Rattle.idl_include.specs.Spots.{values_of};
ghost use Rattle.idl_names.specs.SpotsIn.{filed_value};
ghost use Rattle.check_model.specs.Passes.{bad_constant};
ghost use Rattle.check_model.specs.FirstFlaw.{IsFirstOf};
ghost use Rattle.check_passes.specs.Faults.{IsConstKind, TellsFlaw};
ghost use Rattle.check_passes.specs.Given.{HasOwnWorth, IsGivenWorth, IsFlawAt, AreGivenValues, AreWorth};

use crate::faults::{CheckFault, CheckKind};
use idl_const::ConstFault;
use idl_names::GivenTree;
use idl_token::Place;
use std::alloc::{AllocError, Global};
use thrift_value::Value;

/// Who evaluates the values that a program gives.
pub trait Evaluator {
    ghost use Rattle.idl_include.specs.Program.{Program};

    ghost right: { Self → Program → Type 0 };

    /// What it has to keep for the next value.
    ghost ready: { Self → Type 0 };

    /// What the given value of some number is worth, or the place of its first fault and what is wrong there.
    fn evaluate(&mut self, which: u32, given: &GivenTree<'_>) -> Result<Value, (Place, ConstFault)>
        requires { ready self.old }
        ensures worth { (program : Program) → right self.old program → slice_get (values_of program) which ≡ Some (filed_value given.now)
            → IsGivenWorth program (filed_value given.now) result }
        ensures kept { (program : Program) → right self.old program → right self.new program }
        ensures ready { OnOk result (ready self.new) };
}

/// What the given values of a program are worth, in order, or the first fault.
pub fn evaluate_all<E: Evaluator>(
    alloc: Global,
    evaluator: &mut E,
    values: &[GivenTree<'_>],
) -> Result<Vec<Value>, CheckFault>
    requires { E.ready evaluator.old }
    ensures { (program : Program) → E.right evaluator.old program → AreGivenValues program values.now
        → MatchResult result (λ made. AreWorth program made.items) (TellsFlaw (IsFirstOf program bad_constant)) }
{
    let mut made = Vec::new(alloc);
    for (number, given) in values.iter().enumerate() {
        let Ok(which) = u32::try_from(number) else {
            return Err(CheckFault::from(AllocError));
        };
        match worth_of(evaluator, which, given) {
            Ok(value) => made.push(value)?,
            Err(fault) => return Err(fault),
        }
    }
    Ok(made)
}

/// What the given value of some number is worth, or its fault.
fn worth_of<E: Evaluator>(
    evaluator: &mut E,
    which: u32,
    given: &GivenTree<'_>,
) -> Result<Value, CheckFault>
    requires { E.ready evaluator.old }
    ensures worth { (program : Program) → E.right evaluator.old program → slice_get (values_of program) which ≡ Some (filed_value given.now)
        → MatchResult result (λ value. HasOwnWorth program (filed_value given.now) (tree_of value)) (TellsFlaw (IsFlawAt program (filed_value given.now))) }
    ensures kept { (program : Program) → E.right evaluator.old program → E.right evaluator.new program }
    ensures ready { OnOk result (E.ready evaluator.new) }
{
    match evaluator.evaluate(which, given) {
        Ok(value) => Ok(value),
        Err((at, fault)) => Err(CheckFault {
            file: given.file,
            at,
            kind: const_kind(fault),
        }),
    }
}

/// The kind of a fault of a value.
fn const_kind(fault: ConstFault) -> CheckKind
    ensures { IsConstKind fault result }
{
    match fault {
        ConstFault::NoMemory => CheckKind::NoMemory,
        other => CheckKind::Const(other),
    }
}
