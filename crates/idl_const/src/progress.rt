//! How far an evaluation has come: values counted, and those under evaluation.

ghost use Rattle.std.specs.Prelude.{◌≡◌, ◌+◌, ◌/◌, suc, true, false, is_ok, OnOk, IfOk, IfErr, MatchResult, ℕ};
ghost use Rattle.thrift_value.specs.Tree.{Tree};
ghost use Rattle.thrift_value.specs.TreeOf.{tree_of};
ghost use Rattle.check_model.specs.Worths.{Worth, one_more, seen_at};
ghost use Rattle.check_model.specs.Scalars.{OneWorth};
ghost use Rattle.check_model.specs.Evaluation.{single, opened};
ghost use Rattle.idl_const.specs.Flaws.{IsOneWorth, StopsAs, AnswersWorth};

use crate::faults::{ConstFault, ConstStop};
use idl_token::Place;
use limits::MOST_VALUES;
use thrift_value::Value;

/// How far evaluating has come. It is kept from one given value of a program to the next, so that its bound is one of them all.
#[derive(Drop)]
pub struct Progress {
    // Of each given value, whether it isn't under evaluation.
    pub(crate) free: Vec<bool>,
    // How many values were evaluated.
    pub(crate) values: u32,
    // How many values may be evaluated, and names followed, before it is given up for want of memory.
    pub(crate) steps: u32,
}

/// Counts one value more.
fn count_value(work: &mut Progress, at: Place) -> Result<(), ConstStop>
    ensures more { OnOk result (work.new.values ≡ suc work.old.values) }
    ensures free { work.new.free ≡ work.old.free }
    ensures counted { (inside : ℕ → Worth Tree) → MatchResult result
        (λ _. one_more at work.old.values inside ≡ inside (suc work.old.values))
        (λ stop. StopsAs stop (one_more at work.old.values inside)) }
{
    if work.values >= MOST_VALUES {
        return Err(ConstStop {
            at,
            fault: ConstFault::TooLarge,
        });
    }
    if work.steps == 0 {
        return Err(ConstStop {
            at,
            fault: ConstFault::NoMemory,
        });
    }
    work.steps -= 1;
    work.values += 1;
    Ok(())
}

/// A text of some length is to be copied or looked up: each 64 bytes of it are one step, beside that of its value or name.
pub(crate) fn charge(work: &mut Progress, at: Place, length: usize) -> Result<(), ConstStop>
    ensures free { work.new.free ≡ work.old.free }
    ensures values { work.new.values ≡ work.old.values }
    ensures steps { OnOk result (work.old.steps ≡ work.new.steps + length / 64) }
    ensures memory { IfErr result (λ stop. stop.fault ≡ ConstFault.NoMemory) }
{
    let Ok(cost) = u32::try_from(length / 64) else {
        return Err(ConstStop {
            at,
            fault: ConstFault::NoMemory,
        });
    };
    if cost > work.steps {
        return Err(ConstStop {
            at,
            fault: ConstFault::NoMemory,
        });
    }
    work.steps -= cost;
    Ok(())
}

/// Counts and judges one value, without others inside.
pub(crate) fn single(
    work: &mut Progress,
    at: Place,
    one: Result<Value, ConstFault>,
) -> Result<Value, ConstStop>
    ensures free { work.new.free ≡ work.old.free }
    ensures worth { (worth : OneWorth) → IsOneWorth worth one → AnswersWorth tree_of result work.new.values (single at work.old.values worth) }
{
    count_value(work, at)?;
    match one {
        Ok(value) => Ok(value),
        Err(fault) => Err(ConstStop { at, fault }),
    }
}

/// Opens a container, where its form fits its type and a level is left, and tells how many levels are left inside.
pub(crate) fn opened(
    work: &mut Progress,
    at: Place,
    fits: bool,
    levels: u32,
) -> Result<u32, ConstStop>
    ensures free { work.new.free ≡ work.old.free }
    ensures fits { OnOk result (fits ≡ true) }
    ensures less { IfOk result (λ left. levels ≡ suc left) }
    ensures worth { (inside : ℕ → ℕ → Worth Tree) → MatchResult result
        (λ left. opened at fits levels work.old.values inside ≡ inside left work.new.values)
        (λ stop. StopsAs stop (opened at fits levels work.old.values inside)) }
{
    count_value(work, at)?;
    if !fits {
        return Err(ConstStop {
            at,
            fault: ConstFault::WrongKind,
        });
    }
    if levels == 0 {
        return Err(ConstStop {
            at,
            fault: ConstFault::TooLarge,
        });
    }
    Ok(levels - 1)
}

/// A container whose form doesn't fit its type.
pub(crate) fn unfit(work: &mut Progress, at: Place, levels: u32) -> Result<Value, ConstStop>
    ensures free { work.new.free ≡ work.old.free }
    ensures worth { (inside : ℕ → ℕ → Worth Tree) → AnswersWorth tree_of result work.new.values (opened at false levels work.old.values inside) }
    ensures err { is_ok result ≡ false }
{
    opened(work, at, false, levels)?;
    Err(ConstStop {
        at,
        fault: ConstFault::NoMemory,
    })
}

/// What looks from a place as if it stood there: a value as it is, and a fault as one at this place.
pub(crate) fn put_at(at: Place, made: Result<Value, ConstStop>) -> Result<Value, ConstStop>
    ensures seen { (worth : Worth Tree) (count : ℕ) → AnswersWorth tree_of made count worth → AnswersWorth tree_of result count (seen_at at worth) }
    ensures ok { is_ok result ≡ is_ok made }
{
    match made {
        Ok(value) => Ok(value),
        Err(stop) => Err(ConstStop {
            at,
            fault: stop.fault,
        }),
    }
}
