//! The test of names that are used.

use crate::faults::CheckKind;
use crate::pass::SpotTest;
use idl_names::{NameTables, ShownIn, SpotIn};
use std::alloc::AllocError;

/// Finds names of types and of parents that stand for none.
#[derive(Drop)]
pub(crate) struct UnknownNames<'a> {
    /// What names stand for.
    pub(crate) names: &'a NameTables<'a>,
}

impl<'a> SpotTest for UnknownNames<'a> {
    ghost use Rattle.check_model.specs.Passes.{unknown_type};
    ghost use Rattle.check_passes.specs.Right.{AreFilesOf};

    ghost pass = { unknown_type };

    ghost right = { λ t program. AreFilesOf program t.names.now };

    fn kind(&self) -> CheckKind {
        CheckKind::UnknownType
    }

    fn finds(&self, spot: &SpotIn<'_>) -> Result<bool, AllocError> {
        match spot.shown {
            ShownIn::TypeUse(name) => {
                Ok(
                    self.names
                        .type_named(spot.file, name.text.as_slice())
                        .is_none(),
                )
            }
            ShownIn::ParentUse(name) => {
                Ok(
                    self.names
                        .service_named(spot.file, name.text.as_slice())
                        .is_none(),
                )
            }
            _ => Ok(false),
        }
    }
}
