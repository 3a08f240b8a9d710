//! The errors' line of a pair that is refused.

ghost use Rattle.std.specs.Prelude.{◌≡◌, ◌++◌, codes, take, vec_len, option_map, OnErr, OnOk};
ghost use Rattle.std.specs.List.{slice_get};
ghost use Rattle.std.specs.Option.{option_copied};
ghost use Rattle.service_binding.specs.Pairs.{word_of_pair};
ghost use Rattle.service_binding.specs.Refusals.{default_name_text, pair_at_text, reason_word, refused_pair_text};

use crate::fault::BindKind;
use crate::{BindWords, Word, kind_word};
use call_rules::Kind;
use std::alloc::AllocError;
use text_out::line;

/// The word of a reason.
fn reason_word(kind: BindKind) -> &'static str
    ensures { result.now ≡ reason_word kind }
{
    match kind {
        BindKind::UnknownService => "UnknownService",
        BindKind::SameService => "SameService",
        BindKind::UnknownKind => "UnknownKind",
        BindKind::SameKind => "SameKind",
        BindKind::Unsuited => "Unsuited",
        BindKind::NotBound => "NotBound",
    }
}

/// Appends the word of a pair.
fn put_pair(into: &mut Vec<u8>, pair: &(Word, Kind)) -> Result<(), AllocError>
    ensures ok { OnOk result (into.new.items ≡ into.old.items ++ word_of_pair pair.now) }
    ensures err { OnErr result (take (vec_len into.old) into.new.items ≡ into.old.items) }
{
    into.extend_from_slice(pair.0.as_str().as_bytes())?;
    into.extend_from_slice(b"=")?;
    into.extend_from_slice(kind_word(pair.1).as_bytes())
}

/// Appends the name of the default, where there is one.
fn put_default(into: &mut Vec<u8>, default_service: Option<&[u8]>) -> Result<(), AllocError>
    ensures ok { OnOk result (into.new.items ≡ into.old.items ++ default_name_text (option_map (λ name. name.now) default_service.entry)) }
    ensures err { OnErr result (take (vec_len into.old) into.new.items ≡ into.old.items) }
{
    match default_service {
        Some(name) => into.extend_from_slice(name),
        None => Ok(()),
    }
}

/// Appends the word of the pair at a place, and behind the last pair the name of the default.
fn put_pair_at(
    into: &mut Vec<u8>,
    pairs: &[(Word, Kind)],
    default_service: Option<&[u8]>,
    place: u32,
) -> Result<(), AllocError>
    ensures ok { OnOk result (into.new.items ≡ into.old.items ++ pair_at_text (slice_get pairs.now place) (option_map (λ name. name.now) default_service.entry)) }
    ensures err { OnErr result (take (vec_len into.old) into.new.items ≡ into.old.items) }
{
    match pairs.get(place as usize) {
        Some(pair) => put_pair(into, pair),
        None => put_default(into, default_service),
    }
}

/// Appends the front of the line, with the word at a place.
fn put_front(
    into: &mut Vec<u8>,
    pairs: &[(Word, Kind)],
    default_service: Option<&[u8]>,
    place: u32,
) -> Result<(), AllocError>
    ensures ok { OnOk result (into.new.items ≡ into.old.items ++ (codes "thriftd: bind " ++ pair_at_text (slice_get pairs.now place) (option_map (λ name. name.now) default_service.entry))) }
    ensures err { OnErr result (take (vec_len into.old) into.new.items ≡ into.old.items) }
{
    into.extend_from_slice(b"thriftd: bind ")?;
    put_pair_at(into, pairs, default_service, place)
}

/// Appends the errors' line of the pair at a place, or of the default behind the last pair, which is refused for this reason. Where
/// memory runs out, the bytes are as before.
pub fn put_refused_pair(
    into: &mut Vec<u8>,
    pairs: &BindWords,
    default_service: Option<&[u8]>,
    place: u32,
    kind: BindKind,
) -> Result<(), AllocError>
    ensures ok { OnOk result (into.new.items ≡ into.old.items ++ refused_pair_text pairs.now (option_map (λ name. name.now) default_service.entry) place kind) }
    ensures err { OnErr result (into.new.items ≡ into.old.items) }
{
    let start = into.len();
    let done = put_parts(into, pairs, default_service, place, kind);
    if done.is_err() {
        into.truncate(start);
    }
    done
}

/// Does what `put_refused_pair` does, but leaves a part of the line where memory runs out.
fn put_parts(
    into: &mut Vec<u8>,
    pairs: &BindWords,
    default_service: Option<&[u8]>,
    place: u32,
    kind: BindKind,
) -> Result<(), AllocError>
    ensures ok { OnOk result (into.new.items ≡ into.old.items ++ refused_pair_text pairs.now (option_map (λ name. name.now) default_service.entry) place kind) }
    ensures err { OnErr result (take (vec_len into.old) into.new.items ≡ into.old.items) }
{
    put_front(into, pairs.as_slice(), default_service, place)?;
    into.push(b' ')?;
    line(into, reason_word(kind).as_bytes())?;
    Ok(())
}
