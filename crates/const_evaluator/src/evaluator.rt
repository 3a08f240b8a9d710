//! Who evaluates the values of a program, one after another.

ghost use Rattle.std.specs.Prelude.{◌≡◌, IfOk};
ghost use Rattle.idl_include.specs.SourcesOf.{program_in};
ghost use Rattle.idl_types.specs.Known.{AreAliasTypes};
ghost use Rattle.const_evaluator.specs.ProgramGrounds.{ground_program, IsProgramGround};
ghost use Rattle.const_evaluator.specs.Evaluators.{CanEvaluate, IsEvaluatorOf};

use crate::ground::ProgramGround;
use check_passes::Evaluator;
use idl_const::{ConstFault, Progress, evaluate_given, no_progress};
use idl_names::GivenTree;
use idl_token::Place;
use idl_types::{MOST_TYPES, TypeTables, type_meant};
use std::alloc::{AllocError, Global};
use thrift_value::Value;

/// Who evaluates the values of a program, over its tables.
#[derive(Drop)]
pub struct ProgramEvaluator<'g, 'n, 'a> {
    // Where values are made.
    alloc: Global,
    // The program.
    ground: &'g ProgramGround<'n, 'a>,
    // What its types mean.
    types: &'g TypeTables<'n, 'a>,
    // How many types may still be made.
    room: u32,
    // How far evaluating has come.
    work: Progress,
}

/// Who evaluates the values of a program, of which these are the tables.
pub fn program_evaluator<'g, 'n, 'a>(
    alloc: Global,
    ground: &'g ProgramGround<'n, 'a>,
    types: &'g TypeTables<'n, 'a>,
) -> Result<ProgramEvaluator<'g, 'n, 'a>, AllocError>
    requires ground { IsProgramGround ground.now }
    requires names { program_in types.now.names.now ≡ ground_program ground.now }
    requires aliases { AreAliasTypes (program_in types.now.names.now) types.now.aliases.now }
    ensures ready { IfOk result (λ evaluator. CanEvaluate evaluator) }
    ensures right { IfOk result (λ evaluator. IsEvaluatorOf evaluator (ground_program ground.now)) }
{
    match no_progress(ground, alloc) {
        Ok(work) => Ok(ProgramEvaluator {
            alloc,
            ground,
            types,
            room: MOST_TYPES,
            work,
        }),
        Err(fault) => Err(fault),
    }
}

impl<'g, 'n, 'a> Evaluator for ProgramEvaluator<'g, 'n, 'a> {
    ghost use Rattle.const_evaluator.specs.Evaluators.{CanEvaluate, IsEvaluatorOf};

    ghost ready = { λ e. CanEvaluate e };

    ghost right = { λ e program. IsEvaluatorOf e program };

    fn evaluate(
        &mut self,
        which: u32,
        given: &GivenTree<'_>,
    ) -> Result<Value, (Place, ConstFault)> {
        let kind = type_meant(
            self.alloc,
            self.types,
            given.file,
            given.kind,
            &mut self.room,
        );
        let Ok(kind) = kind else {
            return Err((given.owner, ConstFault::NoMemory));
        };
        evaluate_given(self.ground, self.alloc, &mut self.work, which, &kind)
    }
}
