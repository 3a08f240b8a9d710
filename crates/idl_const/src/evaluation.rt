//! Constant values that a program gives, each evaluated from its beginning, one after another.

ghost use Rattle.std.specs.Prelude.{◌≡◌, ℕ, true, false, Some, slice_get, slice_set, is_ok, IfOk, OnOk};
ghost use Rattle.thrift_value.specs.Tree.{Tree};
ghost use Rattle.thrift_value.specs.TreeOf.{tree_of};
ghost use Rattle.schema.specs.PlainKind.{kind_of};
ghost use Rattle.idl_include.specs.DeclaredIn.{value_in};
ghost use Rattle.idl_include.specs.Numbering.{Filed};
ghost use Rattle.idl_include.specs.Spots.{GivenValue, values_of};
ghost use Rattle.check_model.specs.Worths.{Worth};
ghost use Rattle.check_model.specs.Evaluation.{worth_by, given_worth, all_free};
ghost use Rattle.idl_const.specs.Flaws.{AnswersWorth, IsEvaluated};
ghost use Rattle.idl_const.specs.Idle.{NoneEntered};
ghost use Rattle.idl_const.specs.Marks.{worth_where};

use crate::chains::name_place;
use crate::faults::{ConstFault, ConstStop};
use crate::ground::Ground;
use crate::marks::mark;
use crate::progress::Progress;
use crate::walk::{given, value};
use idl_parser::ConstTree;
use idl_token::Place;
use limits::MOST_LEVELS;
use schema::TypeDesc;
use std::alloc::{AllocError, Global};
use thrift_value::Value;

/// How many values may be evaluated and names followed.
const MOST_STEPS: u32 = 16_000_000;

/// No given value is under evaluation.
fn all_free<G: Ground>(ground: &G, alloc: Global) -> Result<Vec<bool>, AllocError>
    requires { G.right ground.now }
    ensures { IfOk result (λ free. free.items ≡ all_free (G.setting ground.now).program) }
{
    let free = vec![in alloc; true; ground.given_count()]?;
    Ok(free)
}

/// The start of evaluating what a program gives.
pub fn no_progress<G: Ground>(ground: &G, alloc: Global) -> Result<Progress, AllocError>
    requires { G.right ground.now }
    ensures { IfOk result (λ work. NoneEntered (G.setting ground.now).program work) }
{
    let free = all_free(ground, alloc)?;
    Ok(Progress {
        free,
        values: 0,
        steps: MOST_STEPS,
    })
}

/// What evaluating answers by what it came to.
fn told(made: Result<Value, ConstStop>) -> Result<Value, (Place, ConstFault)>
    ensures worth { (worth : Worth Tree) (count : ℕ) → AnswersWorth tree_of made count worth → IsEvaluated worth result }
    ensures ok { is_ok result ≡ is_ok made }
{
    match made {
        Ok(value) => Ok(value),
        Err(stop) => Err((stop.at, stop.fault)),
    }
}

/// The given value of some number, which is no name, against a type, under evaluation itself.
fn value_itself<G: Ground>(
    ground: &G,
    alloc: Global,
    work: &mut Progress,
    which: u32,
    file: u32,
    kind: &TypeDesc,
    tree: &ConstTree,
) -> Result<Value, ConstStop>
    requires { G.right ground.now }
    ensures worth { AnswersWorth tree_of result work.new.values (worth_by (G.setting ground.now)
        (worth_where (G.setting ground.now) (slice_set work.old.free.items which false)) file (kind_of kind.now) 64 work.old.values (value_in tree.now)) }
    ensures free { OnOk result (work.new.free.items ≡ slice_set (slice_set work.old.free.items which false) which true) }
{
    mark(&mut work.free, which, false);
    let made = value(ground, alloc, work, file, kind, MOST_LEVELS, tree);
    mark(&mut work.free, which, true);
    made
}

/// The given value of some number, against its type, under evaluation itself. After a fault there is no going on.
pub fn evaluate_given<G: Ground>(
    ground: &G,
    alloc: Global,
    work: &mut Progress,
    which: u32,
    kind: &TypeDesc,
) -> Result<Value, (Place, ConstFault)>
    requires right { G.right ground.now }
    requires idle { NoneEntered (G.setting ground.now).program work.old }
    ensures worth { (v : Filed GivenValue) → slice_get (values_of (G.setting ground.now).program) which ≡ Some v
        → IsEvaluated (given_worth (G.setting ground.now) which (kind_of kind.now) v) result }
    ensures idle { OnOk result (NoneEntered (G.setting ground.now).program work.new) }
{
    let Some((file, tree)) = ground.given(which) else {
        return Err((Place { line: 0, column: 0 }, ConstFault::NoMemory));
    };
    work.values = 0;
    match name_place(tree) {
        Some(at) => {
            let made = given(ground, alloc, work, at, which, kind, MOST_LEVELS);
            told(made)
        }
        None => {
            let made = value_itself(ground, alloc, work, which, file, kind, tree);
            told(made)
        }
    }
}
