//! White space and comments.
ghost use Rattle.std.specs.Prelude.{◌≡◌, ◌≤◌, ◌<◌, ◌+◌, length, drop, IfSome};
ghost use Rattle.std.specs.List.{prefix_len};
ghost use Rattle.std.specs.Option.{option_map};
ghost use Rattle.idl_token.specs.Blanks.{blank_in, comment_end, begins_line_comment, begins_comment};
ghost use Rattle.idl_token.specs.Lengths.{comment_from};
ghost use Rattle.idl_token.specs.Runs.{takes};

use crate::classes::{byte_at, is_white};
use crate::runs::{ByteRun, run_len};

fn begins_line_comment(text: &[u8]) -> bool
    ensures { result ≡ begins_line_comment text.now }
{
    byte_at(text, 0) == b'#' || byte_at(text, 0) == b'/' && byte_at(text, 1) == b'/'
}

/// Whether a comment up to `*/` begins in front.
pub(crate) fn begins_comment(text: &[u8]) -> bool
    ensures { result ≡ begins_comment text.now }
{
    byte_at(text, 0) == b'/' && byte_at(text, 1) == b'*'
}

fn comment_end(text: &[u8]) -> Option<usize>
    ensures value { result ≡ comment_from 0 text.now }
    ensures within { IfSome result (λ n. n ≤ length text.now) }
{
    for (i, byte) in text.iter().enumerate() {
        if *byte == b'*' && byte_at(text, i + 1) == b'/' {
            return Some(i + 2);
        }
    }
    None
}

fn line_in(text: &[u8]) -> usize
    ensures value { result ≡ prefix_len (takes ByteRun.Line) text.now }
    ensures within { result ≤ length text.now }
{
    run_len(ByteRun::Line, text)
}

/// The bytes of the comment up to `*/` that begins in front, if it has an end.
#[tactic(auto, using(crate::proofs::Scans::comment_from_front))]
fn comment_in(text: &[u8]) -> Option<usize>
    requires { 2 ≤ length text.now }
    ensures value { result ≡ option_map (λ n. 2 + n) (comment_end (drop 2 text.now)) }
    ensures above { IfSome result (λ n. 0 < n) }
    ensures within { IfSome result (λ n. n ≤ length text.now) }
{
    let (_, inside) = text.split_at(2);
    match comment_end(inside) {
        Some(end) => Some(2 + end),
        None => None,
    }
}

/// The bytes of white space or comment in front, if there are any.
#[tactic(auto, unfolding(crate::specs::Blanks::blank_in))]
pub fn blank_in(text: &[u8]) -> Option<usize>
    ensures value { result ≡ blank_in text.now }
    ensures above { IfSome result (λ n. 0 < n) }
    ensures within { IfSome result (λ n. n ≤ length text.now) }
{
    if is_white(byte_at(text, 0)) {
        return Some(1);
    }
    if begins_line_comment(text) {
        let (_, line) = text.split_at(1);
        return Some(1 + line_in(line));
    }
    if !begins_comment(text) {
        return None;
    }
    comment_in(text)
}
