//! Writing a head.

ghost use Rattle.std.specs.Prelude.{◌≡◌, ◌<◌, ◌^◌, ◌++◌, ◌∷◌, OnOk, OnErr, length, take, vec_len};
ghost use Rattle.std.specs.Int.{w32};
ghost use Rattle.wire_num.specs.Fixed.{signed_bytes};
ghost use Rattle.envelope.specs.Spelling.{compact_id, compact_name, head_text, strict_mark, strict_version};

use super::head::{COMPACT_MARK, COMPACT_VERSION, Protocol, STRICT_VERSION};
use std::alloc::AllocError;
use wire_num::{put_i32, put_varint32};

/// Appends a head, strict in the binary protocol; the compact protocol has room for types up to 7, and of others it gets the
/// lowest three bits.
pub fn write_head(
    protocol: Protocol,
    name: &[u8],
    kind: u8,
    id: i32,
    into: &mut Vec<u8>,
) -> Result<(), AllocError>
    requires { length name.now < 2 ^ 31 }
    ensures ok { OnOk result
        (into.new.items ≡ into.old.items ++ head_text protocol (record { name = name.now; kind = kind; id = id })) }
    ensures err { OnErr result (into.new.items ≡ into.old.items) }
{
    let start = into.len();
    let done = match protocol {
        Protocol::Binary => write_strict(name, kind, id, into),
        Protocol::Compact => write_compact(name, kind, id, into),
    };
    if done.is_err() {
        into.truncate(start);
    }
    done
}

/// What stands in front of the name in a strict head: the version, a byte that says nothing, the type, and the length of the name.
#[inline(always)]
fn strict_front(size: i32, kind: u8) -> [u8; 8]
    ensures { result ≡ strict_mark ∷ strict_version ∷ 0 ∷ kind ∷ signed_bytes w32 size }
{
    let [a, b, c, d] = size.to_be_bytes();
    [STRICT_VERSION[0], STRICT_VERSION[1], 0, kind, a, b, c, d]
}

/// Does what `write_head` does in the binary protocol, but leaves a part of the head where memory runs out.
fn write_strict(name: &[u8], kind: u8, id: i32, into: &mut Vec<u8>) -> Result<(), AllocError>
    requires { length name.now < 2 ^ 31 }
    ensures ok { OnOk result
        (into.new.items
        ≡ into.old.items ++ head_text Protocol.Binary (record { name = name.now; kind = kind; id = id })) }
    ensures err { OnErr result (take (vec_len into.old) into.new.items ≡ into.old.items) }
{
    into.extend_from_slice(&strict_front(name.len() as i32, kind))?;
    into.extend_from_slice(name)?;
    put_i32(into, id)
}

/// Does what `write_head` does in the compact protocol, but leaves a part of the head where memory runs out.
fn write_compact(name: &[u8], kind: u8, id: i32, into: &mut Vec<u8>) -> Result<(), AllocError>
    requires { length name.now < 2 ^ 31 }
    ensures ok { OnOk result
        (into.new.items
        ≡ into.old.items ++ head_text Protocol.Compact (record { name = name.now; kind = kind; id = id })) }
    ensures err { OnErr result (take (vec_len into.old) into.new.items ≡ into.old.items) }
{
    into.extend_from_slice(&[COMPACT_MARK, kind % 8 * 32 + COMPACT_VERSION])?;
    put_id(id, into)?;
    put_name(name, into)
}

/// Appends a sequence id as a varint.
#[tactic(auto, unfolding(crate::specs::Spelling::compact_id))]
fn put_id(id: i32, into: &mut Vec<u8>) -> Result<(), AllocError>
    ensures ok { OnOk result (into.new.items ≡ into.old.items ++ compact_id id) }
    ensures err { OnErr result (into.new.items ≡ into.old.items) }
{
    put_varint32(into, u32::from_be_bytes(id.to_be_bytes()))
}

/// Appends the length of a name as a varint, and the name.
#[tactic(auto, unfolding(crate::specs::Spelling::compact_name))]
pub(crate) fn put_name(name: &[u8], into: &mut Vec<u8>) -> Result<(), AllocError>
    requires { length name.now < 2 ^ 31 }
    ensures ok { OnOk result (into.new.items ≡ into.old.items ++ compact_name name.now) }
    ensures err { OnErr result (take (vec_len into.old) into.new.items ≡ into.old.items) }
{
    put_varint32(into, name.len() as u32)?;
    into.extend_from_slice(name)
}
