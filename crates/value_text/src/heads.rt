//! Reads what opens maps, sets and lists.
ghost use Rattle.std.specs.Prelude.{◌≡◌};
ghost use Rattle.value_text.specs.Answering.{Gives};
ghost use Rattle.value_text.specs.Heads.{tag_behind};
ghost use Rattle.value_text.specs.Reading.{head_text_at, map_head_at};

use crate::fronts::{past, tag_at};
use crate::stop::TextStop;
use thrift_value::Tag;

/// A word, with the tag behind it.
fn tag_behind<'a>(word: &[u8], text: &'a [u8]) -> Result<(Tag, &'a [u8]), TextStop>
    ensures { Gives (λ r. (r.0, r.1.now)) result (tag_behind word.now text.now) }
{
    let named = past(word, text)?;
    tag_at(named)
}

/// The word of a set or a list with its tag, and what opens its elements.
#[tactic(auto, unfolding(crate::specs::Reading::head_text_at))]
pub(crate) fn head_at<'a>(word: &[u8], text: &'a [u8]) -> Result<(Tag, &'a [u8]), TextStop>
    ensures { Gives (λ r. (r.0, r.1.now)) result (head_text_at word.now text.now) }
{
    let (tag, behind) = tag_behind(word, text)?;
    let rest = past(b">[", behind)?;
    Ok((tag, rest))
}

/// The word of a map with its tags, and what opens its pairs.
#[tactic(auto, unfolding(crate::specs::Reading::map_head_at))]
pub(crate) fn map_head_at(text: &[u8]) -> Result<(Tag, Tag, &[u8]), TextStop>
    ensures { Gives (λ r. (r.0, r.1, r.2.now)) result (map_head_at text.now) }
{
    let (key, behind) = tag_behind(b"map<", text)?;
    let (tag, behind) = tag_behind(b",", behind)?;
    let rest = past(b">{", behind)?;
    Ok((key, tag, rest))
}
