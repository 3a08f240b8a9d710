//! How many definitions of each kind there are.

ghost use Rattle.std.specs.Prelude.{◌≡◌, suc, IfOk};
ghost use Rattle.idl_include.specs.DeclaredIn.{definition_in};
ghost use Rattle.idl_include.specs.Numbering.{none_counted, counted};
ghost use Rattle.idl_names.specs.SpotsIn.{counts_in};

use idl_parser::Definition;
use std::alloc::AllocError;

/// How many definitions of each kind there are.
#[derive(Clone, Copy)]
pub struct DefinitionCounts {
    /// Typedefs.
    pub aliases: u32,
    /// Constants.
    pub constants: u32,
    /// Enums.
    pub enums: u32,
    /// Structs, unions and exceptions.
    pub structs: u32,
    /// Services.
    pub services: u32,
}

/// Counts no definition.
pub fn no_counts() -> DefinitionCounts
    ensures { counts_in result ≡ none_counted }
{
    DefinitionCounts {
        aliases: 0,
        constants: 0,
        enums: 0,
        structs: 0,
        services: 0,
    }
}

/// Counts one more.
fn one_more(count: u32) -> Result<u32, AllocError>
    ensures { IfOk result (λ next. next ≡ suc count) }
{
    match count.checked_add(1) {
        Some(next) => Ok(next),
        None => Err(AllocError),
    }
}

/// One definition more.
#[tactic(auto, unfolding(idl_include::specs::DeclaredIn::definition_in))]
pub fn with_definition(
    counts: DefinitionCounts,
    definition: &Definition,
) -> Result<DefinitionCounts, AllocError>
    ensures { IfOk result (λ next. counts_in next ≡ counted (counts_in counts) (definition_in definition.now)) }
{
    let mut next = counts;
    match definition {
        Definition::Const(_) => next.constants = one_more(counts.constants)?,
        Definition::Typedef(_) => next.aliases = one_more(counts.aliases)?,
        Definition::Enum(_) => next.enums = one_more(counts.enums)?,
        Definition::Struct(_) => next.structs = one_more(counts.structs)?,
        Definition::Service(_) => next.services = one_more(counts.services)?,
    }
    Ok(next)
}
