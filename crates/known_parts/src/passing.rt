//! Passing over elements, without memory.
ghost use Rattle.std.specs.Prelude.{◌≤◌};
ghost use Rattle.limits.specs.Limits.{most_levels};
ghost use Rattle.wire_model.specs.Answering.{AnswersExactly};
ghost use Rattle.wire_model.specs.AtPlace.{passed_over};
ghost use Rattle.wire_model.specs.Reading.{value, item_list, pair_list};

use crate::rest::{Rest, skip};
use thrift_value::{Tag, WireFault};
use wire_model::Wire;

/// Passes over so many values of a tag.
pub(crate) fn pass_items<'a, W: Wire>(
    rest: Rest<'a>,
    levels: u32,
    tag: Tag,
    count: u32,
) -> Result<Rest<'a>, WireFault>
    requires { levels ≤ most_levels }
    ensures { AnswersExactly (λ r. r) result (passed_over (item_list (value W.wire levels) tag count rest.entry)) }
{
    let mut rest = rest;
    for step in 0..count {
        rest = skip::<W>(rest, levels, tag)?;
    }
    Ok(rest)
}

/// Passes over so many pairs.
pub(crate) fn pass_pairs<'a, W: Wire>(
    rest: Rest<'a>,
    levels: u32,
    key_tag: Tag,
    value_tag: Tag,
    count: u32,
) -> Result<Rest<'a>, WireFault>
    requires { levels ≤ most_levels }
    ensures { AnswersExactly (λ r. r) result (passed_over (pair_list (value W.wire levels) key_tag value_tag count rest.entry)) }
{
    let mut rest = rest;
    for step in 0..count {
        let behind = skip::<W>(rest, levels, key_tag)?;
        rest = skip::<W>(behind, levels, value_tag)?;
    }
    Ok(rest)
}
