//! Texts that are copied or looked up, whose length counts as work.

ghost use Rattle.std.specs.Prelude.{◌≡◌, IfErr};
ghost use Rattle.schema.specs.PlainKind.{kind_of};
ghost use Rattle.thrift_value.specs.TreeOf.{tree_of};
ghost use Rattle.check_model.specs.Scalars.{literal_worth};
ghost use Rattle.check_model.specs.Evaluation.{single};
ghost use Rattle.idl_const.specs.Flaws.{AnswersWorth};

use crate::faults::{ConstFault, ConstStop};
use crate::progress::{Progress, charge, single};
use crate::scalars::literal_value;
use idl_parser::{ConstTree, Literal};
use schema::TypeDesc;
use std::alloc::Global;
use thrift_value::Value;

/// A literal, which is copied.
pub(crate) fn copied_literal(
    alloc: Global,
    work: &mut Progress,
    kind: &TypeDesc,
    literal: &Literal,
) -> Result<Value, ConstStop>
    ensures free { work.new.free ≡ work.old.free }
    ensures worth { AnswersWorth tree_of result work.new.values (single literal.now.at work.old.values (literal_worth (kind_of kind.now) literal.now.bytes)) }
{
    charge(work, literal.at, literal.bytes.as_slice().len())?;
    single(work, literal.at, literal_value(alloc, kind, &literal.bytes))
}

/// Charges for a key, which is to be looked up among the names of fields.
fn charge_key(work: &mut Progress, key: &ConstTree) -> Result<(), ConstStop>
    ensures free { work.new.free ≡ work.old.free }
    ensures values { work.new.values ≡ work.old.values }
    ensures memory { IfErr result (λ stop. stop.fault ≡ ConstFault.NoMemory) }
{
    match key {
        ConstTree::Literal(literal) => charge(work, literal.at, literal.bytes.as_slice().len()),
        ConstTree::Int(_)
        | ConstTree::Double(_)
        | ConstTree::Name(_)
        | ConstTree::List(_, _)
        | ConstTree::Map(_, _) => Ok(()),
    }
}

/// Charges for the keys of a struct's fields.
pub(crate) fn charge_keys(
    work: &mut Progress,
    entries: &[(ConstTree, ConstTree)],
) -> Result<(), ConstStop>
    ensures free { work.new.free ≡ work.old.free }
    ensures values { work.new.values ≡ work.old.values }
    ensures memory { IfErr result (λ stop. stop.fault ≡ ConstFault.NoMemory) }
{
    for (key, _) in entries {
        charge_key(work, key)?;
    }
    Ok(())
}
