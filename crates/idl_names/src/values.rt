//! The values that a program gives.

ghost use Rattle.std.specs.Prelude.{◌≡◌, ◌++◌, List, map, IfOk, OnOk};
ghost use Rattle.std.specs.List.{cons_option, filter_map};
ghost use Rattle.idl_include.specs.Numbering.{Filed};
ghost use Rattle.idl_include.specs.Spots.{GivenValue, Spot, value_at};
ghost use Rattle.idl_names.specs.SpotsIn.{filed_value, shown_in, spots_in};

use crate::adding::put;
use crate::spot::{GivenTree, ShownIn, SpotIn};
use std::alloc::{AllocError, Global};

/// The values that are given at spots, in order.
pub fn values_at<'a>(alloc: Global, spots: &[SpotIn<'a>]) -> Result<Vec<GivenTree<'a>>, AllocError>
    ensures { IfOk result (λ values. map filed_value values.items ≡ filter_map (λ (s : Spot). value_at s.file s.shows) (spots_in spots.now)) }
{
    let mut values = Vec::new(alloc);
    for spot in spots {
        put_value(&mut values, spot)?;
    }
    Ok(values)
}

/// The value of a spot, if it shows one.
fn put_value<'a>(values: &mut Vec<GivenTree<'a>>, spot: &SpotIn<'a>) -> Result<(), AllocError>
    ensures { (more : List (Filed GivenValue)) → OnOk result (map filed_value values.new.items ++ more
        ≡ map filed_value values.old.items ++ cons_option (value_at spot.now.file (shown_in spot.now.shown)) more) }
{
    match spot.shown {
        ShownIn::Value(given) => {
            let value = GivenTree {
                file: spot.file,
                owner: given.owner,
                kind: given.kind,
                tree: given.tree,
            };
            put(values, value)?;
            Ok(())
        }
        _ => Ok(()),
    }
}
