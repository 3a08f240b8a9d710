//! The names of types.

ghost use Rattle.std.specs.Prelude.{◌≡◌, ◌++◌, ◌∷◌, [], OnOk};
ghost use Rattle.idl_include.specs.DeclaredIn.{type_in};
ghost use Rattle.idl_include.specs.Spots.{type_spots, in_file};
ghost use Rattle.idl_names.specs.SpotsIn.{spots_in, shown_in};

use crate::adding::put;
use crate::spot::{ShownIn, SpotIn};
use idl_parser::TypeTree;
use std::alloc::AllocError;

/// Adds one spot.
pub(crate) fn put_spot<'a>(
    spots: &mut Vec<SpotIn<'a>>,
    file: u32,
    shown: ShownIn<'a>,
) -> Result<(), AllocError>
    ensures { OnOk result (spots_in spots.new.items ≡ spots_in spots.old.items ++ in_file file (shown_in shown.entry ∷ [])) }
{
    put(spots, SpotIn { file, shown })
}

/// The names in a type.
pub(crate) fn put_type_uses<'a>(
    spots: &mut Vec<SpotIn<'a>>,
    file: u32,
    tree: &'a TypeTree,
) -> Result<(), AllocError>
    ensures { OnOk result (spots_in spots.new.items ≡ spots_in spots.old.items ++ in_file file (type_spots (type_in tree.now))) }
{
    match tree {
        TypeTree::Base(_, _) => Ok(()),
        TypeTree::Named(name) => put_spot(spots, file, ShownIn::TypeUse(name)),
        TypeTree::Map(_, key, value) => {
            put_type_uses(spots, file, key)?;
            put_type_uses(spots, file, value)
        }
        TypeTree::Set(_, member) => put_type_uses(spots, file, member),
        TypeTree::List(_, element) => put_type_uses(spots, file, element),
    }
}
