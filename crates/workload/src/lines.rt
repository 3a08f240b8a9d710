//! The lines of a workload's script.

ghost use Rattle.std.specs.Prelude.{◌≡◌, ◌<◌, ◌≤◌, ◌*◌, ◌^◌, ◌++◌, [], map, length, take, replicate, slice_index_or, max, OnOk, IfOk};
ghost use Rattle.script_model.specs.ScriptLines.{opening, input_end, count_up};
ghost use Rattle.script_text.specs.Plans.{plain_line, plain_rules};
ghost use Rattle.workload.specs.LoadPlan.{pieces_of, most_pieces, piece_line, round, rounds, plan_of_streams};

use script_text::{RuleList, ScriptLine};
use std::alloc::{AllocError, Global};
use streams::Bytes;

/// How many bytes a piece has; the last one of a connection may have fewer.
const PIECE_SIZE: usize = 61;

/// The lines of the script of connections that have these bytes.
pub(crate) fn lines_of(alloc: Global, streams: &[Bytes]) -> Result<Vec<ScriptLine>, AllocError>
    requires { length streams.now ≤ 8 }
    ensures { IfOk result (λ lines. map plain_line lines.items ≡ (plan_of_streams streams.now).lines) }
{
    let mut lines = Vec::new(alloc);
    put_openings(&mut lines, streams.len())?;
    put_rounds(alloc, &mut lines, streams)?;
    put_ends(&mut lines, streams.len())?;
    Ok(lines)
}

/// Makes as many connections without rules.
pub(crate) fn no_rules(alloc: Global, n: usize) -> Result<Vec<RuleList>, AllocError>
    ensures { IfOk result (λ rules. map plain_rules rules.items ≡ replicate n []) }
{
    let mut rules = Vec::new(alloc);
    for _ in 0..n {
        rules.push(RuleList::new(Vec::new(alloc)))?;
    }
    Ok(rules)
}

/// Appends as many lines that open a connection.
fn put_openings(into: &mut Vec<ScriptLine>, n: usize) -> Result<(), AllocError>
    ensures { OnOk result (map plain_line into.new.items ≡ map plain_line into.old.items ++ replicate n opening) }
{
    for _ in 0..n {
        into.push(ScriptLine::Opens)?;
    }
    Ok(())
}

/// Appends the lines that end the inputs.
fn put_ends(into: &mut Vec<ScriptLine>, n: usize) -> Result<(), AllocError>
    requires { n ≤ 8 }
    ensures { OnOk result (map plain_line into.new.items ≡ map plain_line into.old.items ++ map input_end (count_up 0 n)) }
{
    for c in 0..n {
        into.push(ScriptLine::Ends(c as u32))?;
    }
    Ok(())
}

/// Appends all pieces: the first of each connection, then the second of each, and so on.
fn put_rounds(
    alloc: Global,
    into: &mut Vec<ScriptLine>,
    streams: &[Bytes],
) -> Result<(), AllocError>
    requires { length streams.now ≤ 8 }
    ensures { OnOk result (map plain_line into.new.items ≡ map plain_line into.old.items ++ rounds streams.now) }
{
    for i in 0..most_pieces(streams) {
        put_round(alloc, into, streams, i)?;
    }
    Ok(())
}

/// Appends piece number i of each connection.
fn put_round(
    alloc: Global,
    into: &mut Vec<ScriptLine>,
    streams: &[Bytes],
    i: usize,
) -> Result<(), AllocError>
    requires few { length streams.now ≤ 8 }
    requires small { i < 2 ^ 58 }
    ensures { OnOk result (map plain_line into.new.items ≡ map plain_line into.old.items ++ round streams.now i) }
{
    for c in 0..streams.len() {
        put_piece(alloc, into, i, c as u32, stream_of(streams, c))?;
    }
    Ok(())
}

/// The bytes of a connection.
fn stream_of(streams: &[Bytes], c: usize) -> &[u8]
    requires { c < length streams.now }
    ensures { result.now ≡ slice_index_or streams.now c [] }
{
    streams[c].as_slice()
}

/// Appends piece number i of a connection that has these bytes, where there is one.
fn put_piece(
    alloc: Global,
    into: &mut Vec<ScriptLine>,
    i: usize,
    c: u32,
    bytes: &[u8],
) -> Result<(), AllocError>
    requires { i < 2 ^ 58 }
    ensures { OnOk result (map plain_line into.new.items ≡ map plain_line into.old.items ++ piece_line i c bytes.now) }
{
    let at = PIECE_SIZE * i;
    if bytes.len() <= at {
        return Ok(());
    }
    let piece = front_of(bytes.split_at(at).1).to_vec(alloc)?;
    into.push(ScriptLine::Piece(c, Bytes::new(piece)))?;
    Ok(())
}

/// As many of these bytes as a piece has.
fn front_of(bytes: &[u8]) -> &[u8]
    ensures { result.now ≡ take 61 bytes.now }
{
    if bytes.len() <= PIECE_SIZE {
        return bytes;
    }
    bytes.split_at(PIECE_SIZE).0
}

/// The most pieces that any of these connections has.
fn most_pieces(streams: &[Bytes]) -> usize
    ensures is { result ≡ most_pieces streams.now }
    ensures small { result < 2 ^ 58 }
{
    let [first, rest @ ..] = streams else {
        return 0;
    };
    larger(pieces_of(first.as_slice()), most_pieces(rest))
}

/// How many pieces these bytes are cut into.
fn pieces_of(bytes: &[u8]) -> usize
    ensures is { result ≡ pieces_of bytes.now }
    ensures small { result < 2 ^ 58 }
{
    (bytes.len() + 60) / PIECE_SIZE
}

/// The larger of two numbers.
fn larger(a: usize, b: usize) -> usize
    ensures { result ≡ max a b }
{
    if a < b {
        return b;
    }
    a
}
