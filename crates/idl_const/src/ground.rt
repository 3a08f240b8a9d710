//! What evaluating asks of a program.

ghost use Rattle.std.specs.Prelude.{◌≡◌, length, map, IfOk};
ghost use Rattle.std.specs.List.{find};
ghost use Rattle.std.specs.Option.{option_map, option_copied};
ghost use Rattle.std.specs.Str.{bytes_eq};
ghost use Rattle.idl_include.specs.Spots.{values_of};
ghost use Rattle.idl_include.specs.ConstNames.{const_meaning};
ghost use Rattle.schema.specs.PlainSchema.{PlainField};
ghost use Rattle.schema.specs.SchemaOf.{plain_field};
ghost use Rattle.check_model.specs.Evaluation.{struct_numbered, default_of, fields_worth};
ghost use Rattle.idl_const.specs.ChainEnds.{chain_end_of};
ghost use Rattle.idl_const.specs.FieldEntries.{entry_in, given_in_memory, entries_worth, AreGivenFor};
ghost use Rattle.idl_const.specs.Given.{tree_filed, tree_numbered};
ghost use Rattle.idl_names.specs.Meanings.{const_meant};

use crate::chains::ChainEnd;
use idl_names::ConstName;
use idl_parser::ConstTree;
use schema::{FieldDesc, StructKind};
use std::alloc::{AllocError, Global};
use std::collections::VecDeque;
use thrift_value::Value;

/// A field that a literal of a struct is made of.
#[derive(Drop)]
pub enum FieldEntry<'a> {
    /// It is given, by its id.
    Given(i16, Value),
    /// It isn't given, and has a default, by its number among the given values, or has to be given.
    Owed(&'a FieldDesc, Option<u32>),
}

/// A program in which constants are evaluated.
pub trait Ground {
    ghost use Rattle.check_model.specs.Evaluation.{Setting};

    ghost setting: { Self → Setting };

    /// What holds of it besides, so that its answers are right; tables may be right about some trees alone.
    ghost right: { Self → Type 0 };

    /// What a name that stands in a file stands for.
    fn meaning(&self, file: u32, name: &[u8]) -> Option<ConstName>
        requires { right self.now }
        ensures { option_map const_meant result ≡ const_meaning (setting self.now).program file name.now };

    /// How many values are given.
    fn given_count(&self) -> usize
        requires { right self.now }
        ensures { result ≡ length (values_of (setting self.now).program) };

    /// The file and the tree of the given value of some number.
    fn given(&self, which: u32) -> Option<(u32, &ConstTree)>
        requires { right self.now }
        ensures { option_map tree_filed result ≡ tree_numbered (setting self.now).program which };

    /// Where the chain of mere names ends that begins with the given value of some number; none where it leads round.
    fn chain_end(&self, which: u32) -> Option<ChainEnd>
        requires { right self.now }
        ensures { result ≡ chain_end_of (setting self.now).program which };

    /// Which kind of fields the struct of some number has.
    fn fields_kind(&self, which: u32) -> StructKind
        requires { right self.now }
        ensures { result ≡ (struct_numbered (setting self.now).schema which).kind };

    /// The field of a name of the struct of some number.
    fn field_named(&self, which: u32, name: &[u8]) -> Option<&FieldDesc>
        requires { right self.now }
        ensures { option_map plain_field (option_copied result) ≡ find (λ (f : PlainField). bytes_eq f.name name.now) (struct_numbered (setting self.now).schema which).fields };

    /// What the struct of some number is made of, by rising id, where these values are given.
    fn entries(
        &self,
        alloc: Global,
        which: u32,
        given: Vec<(i16, Value)>,
    ) -> Result<VecDeque<FieldEntry<'_>>, AllocError>
        requires right { right self.now }
        requires given { AreGivenFor (struct_numbered (setting self.now).schema which).fields (map given_in_memory given.items) }
        ensures { IfOk result (λ row. (named : _) (at : _) (levels count : _)
            → fields_worth named (default_of (setting self.now).program which) (map given_in_memory given.items) at levels count (struct_numbered (setting self.now).schema which).fields
            ≡ entries_worth named at levels count (map entry_in row.items)) };
}
