//! What literals and integers stand for.
ghost use Rattle.std.specs.Prelude.{◌≡◌, ◌-◌, false, take, drop, length, FitsSigned, MatchResult};
ghost use Rattle.std.specs.Int.{w64};
ghost use Rattle.idl_parser.specs.Leaves.{escaped, unescaped, literal_bytes, int_number};

use crate::reader::Stop;
use idl_token::int_value;
use lists::ByteText;
use std::alloc::Global;

fn escaped(byte: u8) -> u8
    ensures { result ≡ escaped byte }
{
    match byte {
        b'n' => b'\n',
        b't' => b'\t',
        b'r' => b'\r',
        _ => byte,
    }
}

/// The bytes between quotation marks, with escapes resolved.
fn unescaped(alloc: Global, bytes: &[u8]) -> Result<ByteText, Stop>
    ensures { MatchResult result (λ text. text ≡ unescaped false bytes.now) (λ e. e ≡ Stop.NoMemory) }
{
    let mut all = Vec::new(alloc);
    let mut taken = false;
    for byte in bytes {
        if !taken && *byte == b'\\' {
            taken = true;
        } else {
            let next = if taken { escaped(*byte) } else { *byte };
            all.push(next)?;
            taken = false;
        }
    }
    Ok(ByteText::new(all))
}

/// What the bytes of a literal stand for.
#[tactic(auto, unfolding(crate::specs::Leaves::literal_bytes))]
pub(crate) fn literal_bytes(alloc: Global, literal: &[u8]) -> Result<ByteText, Stop>
    ensures { MatchResult result (λ text. text ≡ literal_bytes literal.now) (λ e. e ≡ Stop.NoMemory) }
{
    unescaped(alloc, inside(literal))
}

/// What stands between the first byte and the last.
fn inside(literal: &[u8]) -> &[u8]
    ensures { result.now ≡ take (length literal.now - 2) (drop 1 literal.now) }
{
    let (_, rest) = literal.split_at(literal.len().min(1));
    let (front, _) = rest.split_at(literal.len().saturating_sub(2));
    front
}

/// The number of an integer's token.
#[tactic(auto, unfolding(crate::specs::Leaves::int_number))]
pub(crate) fn int_number(int: &[u8]) -> i64
    requires { FitsSigned w64 (int_number int.now) }
    ensures { result ≡ int_number int.now }
{
    if int == b"true".as_slice() {
        return 1;
    }
    if int == b"false".as_slice() {
        return 0;
    }
    int_value(int)
}
