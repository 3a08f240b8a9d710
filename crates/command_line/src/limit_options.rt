//! The limits that options set.

ghost use Rattle.std.specs.Prelude.{◌≡◌};
ghost use Rattle.command_line.specs.Clapped.{sorted_said};
ghost use Rattle.command_line.specs.Lent.{lent_words};
ghost use Rattle.command_line.specs.Limits.{limits_given, limits_of_numbers, limits_said, number_given};

use crate::numbers::number_of_word;
use crate::sorting::Sorted;
use conn_table::Limits;
use limits::{LONGEST_PAYLOAD, USUAL_PAYLOAD};

/// The number of an option that may be left out.
fn number_given(values: &[&str], usual: u64) -> Option<u64>
    ensures { result ≡ number_given usual (lent_words values.now) }
{
    match values {
        [] => Some(usual),
        [value] => number_of_word(value),
        _ => None,
    }
}

/// The limits of these numbers, where they are limits.
fn limits_of_numbers(most: u64, budget: u64) -> Option<Limits>
    ensures { result ≡ limits_of_numbers most budget }
{
    if most < 1 {
        return None;
    }
    if most > budget {
        return None;
    }
    if budget > LONGEST_PAYLOAD {
        return None;
    }
    Some(Limits {
        max_frame: most as u32,
        read_budget: budget,
    })
}

/// The limits by the values of the options.
fn limits_given(max_frames: &[&str], read_budgets: &[&str]) -> Option<Limits>
    ensures { result ≡ limits_given (lent_words max_frames.now) (lent_words read_budgets.now) }
{
    let most = number_given(max_frames, u64::from(USUAL_PAYLOAD))?;
    let budget = number_given(read_budgets, LONGEST_PAYLOAD)?;
    limits_of_numbers(most, budget)
}

/// The limits that sorted words say.
pub(crate) fn limits_said(sorted: &Sorted<'_>) -> Option<Limits>
    ensures { result ≡ limits_said (sorted_said sorted.now) }
{
    limits_given(sorted.beside("max-frame"), sorted.beside("read-budget"))
}
