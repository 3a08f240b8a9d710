//! Tests that look at a spot and at what stands before it in its list alone.

use crate::faults::CheckKind;
use crate::pass::SpotTest;
use crate::spot_facts::{has_oneway_result, has_oneway_throws, is_bad_field_id};
use idl_names::{ShownIn, SpotIn, is_dotted};
use std::alloc::AllocError;

/// Finds names with a dot.
pub(crate) struct DottedNames;

impl SpotTest for DottedNames {
    ghost use Rattle.std.specs.Prelude.{⊤};
    ghost use Rattle.check_model.specs.Passes.{dotted_name};

    ghost pass = { dotted_name };

    ghost right = { λ _ _. ⊤ };

    fn kind(&self) -> CheckKind {
        CheckKind::DottedName
    }

    fn finds(&self, spot: &SpotIn<'_>) -> Result<bool, AllocError> {
        match spot.shown {
            ShownIn::Given(given) => Ok(is_dotted(given.name.text.as_slice())),
            _ => Ok(false),
        }
    }
}

/// Finds names that were given before in the same list.
pub(crate) struct RepeatedNames;

impl SpotTest for RepeatedNames {
    ghost use Rattle.std.specs.Prelude.{⊤};
    ghost use Rattle.check_model.specs.Passes.{duplicate_name};

    ghost pass = { duplicate_name };

    ghost right = { λ _ _. ⊤ };

    fn kind(&self) -> CheckKind {
        CheckKind::DuplicateName
    }

    fn finds(&self, spot: &SpotIn<'_>) -> Result<bool, AllocError> {
        match spot.shown {
            ShownIn::Given(given) => Ok(given.repeated),
            _ => Ok(false),
        }
    }
}

/// Finds numbers of fields that aren't 1 to 32767, and fields without one behind 32768 of them.
pub(crate) struct BadFieldIds;

impl SpotTest for BadFieldIds {
    ghost use Rattle.std.specs.Prelude.{⊤};
    ghost use Rattle.check_model.specs.Passes.{field_id};

    ghost pass = { field_id };

    ghost right = { λ _ _. ⊤ };

    fn kind(&self) -> CheckKind {
        CheckKind::FieldId
    }

    fn finds(&self, spot: &SpotIn<'_>) -> Result<bool, AllocError> {
        match spot.shown {
            ShownIn::Field(field) => Ok(is_bad_field_id(&field)),
            _ => Ok(false),
        }
    }
}

/// Finds fields with the id of one before.
pub(crate) struct RepeatedIds;

impl SpotTest for RepeatedIds {
    ghost use Rattle.std.specs.Prelude.{⊤};
    ghost use Rattle.check_model.specs.Passes.{duplicate_id};

    ghost pass = { duplicate_id };

    ghost right = { λ _ _. ⊤ };

    fn kind(&self) -> CheckKind {
        CheckKind::DuplicateId
    }

    #[tactic(auto, unfolding(idl_include::specs::DeclaredIn::field_in))]
    fn finds(&self, spot: &SpotIn<'_>) -> Result<bool, AllocError> {
        match spot.shown {
            ShownIn::Field(field) => Ok(field.repeated),
            _ => Ok(false),
        }
    }
}

/// Finds values of enums whose number has more than 32 bits.
pub(crate) struct WideEnumNumbers;

impl SpotTest for WideEnumNumbers {
    ghost use Rattle.std.specs.Prelude.{⊤};
    ghost use Rattle.check_model.specs.Passes.{enum_number};

    ghost pass = { enum_number };

    ghost right = { λ _ _. ⊤ };

    fn kind(&self) -> CheckKind {
        CheckKind::EnumValue
    }

    fn finds(&self, spot: &SpotIn<'_>) -> Result<bool, AllocError> {
        match spot.shown {
            ShownIn::EnumValue(value) => Ok(!value.fits),
            _ => Ok(false),
        }
    }
}

/// Finds oneway functions with a result.
pub(crate) struct OnewayResults;

impl SpotTest for OnewayResults {
    ghost use Rattle.std.specs.Prelude.{⊤};
    ghost use Rattle.check_model.specs.Passes.{oneway_not_void};

    ghost pass = { oneway_not_void };

    ghost right = { λ _ _. ⊤ };

    fn kind(&self) -> CheckKind {
        CheckKind::OnewayNotVoid
    }

    fn finds(&self, spot: &SpotIn<'_>) -> Result<bool, AllocError> {
        match spot.shown {
            ShownIn::Function(shown) => Ok(has_oneway_result(shown.function)),
            _ => Ok(false),
        }
    }
}

/// Finds oneway functions that throw exceptions.
pub(crate) struct OnewayExceptions;

impl SpotTest for OnewayExceptions {
    ghost use Rattle.std.specs.Prelude.{⊤};
    ghost use Rattle.check_model.specs.Passes.{oneway_throws};

    ghost pass = { oneway_throws };

    ghost right = { λ _ _. ⊤ };

    fn kind(&self) -> CheckKind {
        CheckKind::OnewayThrows
    }

    fn finds(&self, spot: &SpotIn<'_>) -> Result<bool, AllocError> {
        match spot.shown {
            ShownIn::Function(shown) => Ok(has_oneway_throws(shown.function)),
            _ => Ok(false),
        }
    }
}
