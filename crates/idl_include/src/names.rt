//! Names of files: what an include's literal means, and a file's base name.

ghost use Rattle.std.specs.Prelude.{◌≡◌, ◌||◌, not, [], ◌∷◌, MatchOption, ◌<◌, ◌≤◌, ◌-◌, length, take, drop, reverse, slice_index, string_bytes, IfOk, OnOk};
ghost use Rattle.std.specs.List.{slice_split};
ghost use Rattle.std.specs.Str.{bytes_eq};
ghost use Rattle.idl_include.specs.FileNames.{is_absolute, with_segments, is_slash, is_upward, with_upward, last_segment, folder_of, with_segment, cleaned, included_name, base_name};
ghost use Rattle.idl_include.specs.Texts.{texts};

use std::alloc::{AllocError, AllocFailed, Global};

/// Where a file's last segment begins.
fn segment_start(name: &[u8]) -> usize
    ensures within { result ≤ length name.now }
    ensures last { drop result name.now ≡ last_segment name.now }
    ensures folder { take result name.now ≡ folder_of name.now }
    ensures behind { 0 < result → slice_index name.now (result - 1) ≡ 47 }
{
    let mut at = name.len();
    while at > 0 {
        if name[at - 1] == b'/' {
            return at;
        }
        at -= 1;
    }
    0
}

/// A file's folder: its name up to the last `/`, which is included.
fn folder(name: &str) -> &str
    ensures { result.now ≡ folder_of name.now }
{
    let end = segment_start(name.as_bytes());
    &name[..end]
}

/// A file's base name: its last segment without `.thrift`.
#[tactic(auto, unfolding(crate::specs::FileNames::base_name))]
pub(crate) fn base_name(name: &[u8]) -> &[u8]
    ensures { result.now ≡ base_name name.now }
{
    let (_, last) = name.split_at(segment_start(name));
    if last.ends_with(b".thrift") {
        return last.split_at(last.len() - 7).0;
    }
    last
}

/// The segments of a name.
fn segments(alloc: Global, name: &str) -> Result<Vec<&str>, AllocError>
    ensures { IfOk result (λ parts. texts parts.items ≡ slice_split is_slash name.now) }
{
    name.split('/').collect(alloc)
}

/// Whether `..` takes this segment out.
fn is_taken_out(segment: &str) -> bool
    ensures { result ≡ not (bytes_eq segment.now [] || is_upward segment.now) }
{
    !segment.is_empty() && segment != ".."
}

/// Adds a segment at the end.
#[tactic(auto, using(crate::proofs::Segments::with_last))]
fn push_segment<'a>(kept: &mut Vec<&'a str>, segment: &'a str) -> Result<(), AllocFailed<&'a str>>
    ensures { OnOk result (reverse (texts kept.new.items) ≡ segment.now ∷ reverse (texts kept.old.items)) }
{
    kept.push(segment)
}

/// The last segment, taken out.
#[tactic(auto, using(crate::proofs::Segments::with_last))]
fn pop_segment<'a>(kept: &mut Vec<&'a str>) -> Option<&'a str>
    ensures { MatchOption result ((reverse (texts kept.old.items) ≡ []) × (reverse (texts kept.new.items) ≡ []))
        (λ last. reverse (texts kept.old.items) ≡ last.now ∷ reverse (texts kept.new.items)) }
{
    kept.pop()
}

/// Adds a `..`: it takes out the segment before, where that is one that may be taken out.
#[tactic(auto, using(crate::proofs::Segments::taken_out, crate::proofs::Segments::left_in))]
fn add_upward<'a>(kept: &mut Vec<&'a str>, segment: &'a str) -> Result<(), AllocFailed<&'a str>>
    ensures { OnOk result (reverse (texts kept.new.items) ≡ with_upward (reverse (texts kept.old.items)) segment.now) }
{
    let Some(last) = pop_segment(kept) else {
        return push_segment(kept, segment);
    };
    if is_taken_out(last) {
        return Ok(());
    }
    push_segment(kept, last)?;
    push_segment(kept, segment)
}

/// Adds a segment: `.` is dropped, and `..` takes out the one before.
fn add_segment<'a>(kept: &mut Vec<&'a str>, segment: &'a str) -> Result<(), AllocFailed<&'a str>>
    ensures { OnOk result (reverse (texts kept.new.items) ≡ with_segment (reverse (texts kept.old.items)) segment.now) }
{
    if segment == "." {
        return Ok(());
    }
    if segment == ".." {
        return add_upward(kept, segment);
    }
    push_segment(kept, segment)
}

/// The segments that are left of a name.
fn kept_segments<'a>(alloc: Global, name: &'a str) -> Result<Vec<&'a str>, AllocError>
    ensures { IfOk result (λ kept. reverse (texts kept.items) ≡ with_segments [] (slice_split is_slash name.now)) }
{
    let parts = segments(alloc, name)?;
    let mut kept = Vec::new(alloc);
    for part in parts.iter() {
        add_segment(&mut kept, *part)?;
    }
    Ok(kept)
}

/// A name without `.` segments and without pairs `x/..`.
#[tactic(auto, using(crate::proofs::Joined::joined_is), unfolding(crate::specs::FileNames::cleaned))]
fn cleaned(alloc: Global, name: &str) -> Result<String, AllocError>
    ensures { IfOk result (λ text. string_bytes text ≡ cleaned name.now) }
{
    let kept = kept_segments(alloc, name)?;
    kept.as_slice().join(alloc, "/")
}

/// The name of the file that a literal means in a file of this name.
#[tactic(auto, unfolding(crate::specs::FileNames::included_name))]
pub(crate) fn included_name(alloc: Global, file: &str, literal: &str) -> Result<String, AllocError>
    ensures { IfOk result (λ name. string_bytes name ≡ included_name file.now literal.now) }
{
    if begins_at_the_root(literal.as_bytes()) {
        return String::from_str(alloc, literal);
    }
    let mut name = String::from_str(alloc, folder(file))?;
    name.push_str(literal)?;
    cleaned(alloc, name.as_str())
}

/// Whether a name begins with `/`.
fn begins_at_the_root(name: &[u8]) -> bool
    ensures { result ≡ is_absolute name.now }
{
    match name {
        [first, ..] => *first == b'/',
        [] => false,
    }
}
