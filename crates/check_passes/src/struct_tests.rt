//! The test of structs that have no finite value.

ghost use Rattle.std.specs.Prelude.{◌≡◌, ◌↔◌, false, slice_index_or, IsTrue};
ghost use Rattle.idl_include.specs.Program.{Program};
ghost use Rattle.check_model.specs.Passes.{NeedsFiniteValue, HasNoFiniteValue};
ghost use Rattle.check_passes.specs.Right.{TellFinite};

use crate::faults::CheckKind;
use crate::pass::SpotTest;
use idl_names::{ShownIn, SpotIn};
use idl_parser::StructKind;
use std::alloc::AllocError;

/// Finds structs and exceptions that have no finite value.
#[derive(Drop)]
pub(crate) struct EndlessStructs<'a> {
    /// Which structs have a finite value, by number.
    pub(crate) finite: &'a [bool],
}

impl<'a> SpotTest for EndlessStructs<'a> {
    ghost use Rattle.check_model.specs.Passes.{struct_loop};
    ghost use Rattle.check_passes.specs.Right.{TellFinite};

    ghost pass = { struct_loop };

    ghost right = { λ t program. TellFinite program t.finite.now };

    fn kind(&self) -> CheckKind {
        CheckKind::StructLoop
    }

    fn finds(&self, spot: &SpotIn<'_>) -> Result<bool, AllocError> {
        match spot.shown {
            ShownIn::Struct(number, item) => Ok(is_endless(self.finite, number, item.kind)),
            _ => Ok(false),
        }
    }
}

/// Whether the struct of some number, which is of this kind, has to have a finite value and has none.
fn is_endless(finite: &[bool], number: u32, kind: StructKind) -> bool
    ensures { (program : Program) → TellFinite program finite.now → IsTrue result ↔ NeedsFiniteValue kind × HasNoFiniteValue program number }
{
    match kind {
        StructKind::Union => false,
        StructKind::Struct => !is_marked(finite, number),
        StructKind::Exception => !is_marked(finite, number),
    }
}

/// The mark of a number; none where the marks end before it.
fn is_marked(marks: &[bool], number: u32) -> bool
    ensures { result ≡ slice_index_or marks.now number false }
{
    match marks.get(number as usize) {
        Some(mark) => *mark,
        None => false,
    }
}
