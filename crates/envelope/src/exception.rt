//! Writing an exception.

ghost use Rattle.std.specs.Prelude.{◌≡◌, ◌<◌, ◌^◌, ◌++◌, ◌∷◌, OnOk, OnErr, length, take, vec_len};
ghost use Rattle.std.specs.Int.{w32};
ghost use Rattle.wire_num.specs.Fixed.{signed_bytes};
ghost use Rattle.envelope.specs.Exception.{exception_text, exception_head, failure_struct, compact_text_field, compact_code_field};

use super::head::Protocol;
use super::write::{put_name, write_head};
use std::alloc::AllocError;
use wire_num::{put_varint32, zigzag32};

/// The type of an exception (Thrift RPC specification, 'Message').
const EXCEPTION: u8 = 3;

/// Appends the whole message that tells a caller that its call failed: the name and the sequence id are those of the call (Thrift
/// RPC specification, 'Application Exceptions').
pub fn write_exception(
    protocol: Protocol,
    name: &[u8],
    id: i32,
    text: &[u8],
    code: i32,
    into: &mut Vec<u8>,
) -> Result<(), AllocError>
    requires name { length name.now < 2 ^ 31 }
    requires text { length text.now < 2 ^ 31 }
    ensures ok { OnOk result
        (into.new.items ≡ into.old.items ++ exception_text protocol name.now id (record { text = text.now; code = code })) }
    ensures err { OnErr result (into.new.items ≡ into.old.items) }
{
    let start = into.len();
    let done = write_parts(protocol, name, id, text, code, into);
    if done.is_err() {
        into.truncate(start);
    }
    done
}

/// Does what `write_exception` does, but leaves a part of the message where memory runs out.
fn write_parts(
    protocol: Protocol,
    name: &[u8],
    id: i32,
    text: &[u8],
    code: i32,
    into: &mut Vec<u8>,
) -> Result<(), AllocError>
    requires name { length name.now < 2 ^ 31 }
    requires text { length text.now < 2 ^ 31 }
    ensures ok { OnOk result
        (into.new.items ≡ into.old.items ++ exception_text protocol name.now id (record { text = text.now; code = code })) }
    ensures err { OnErr result (take (vec_len into.old) into.new.items ≡ into.old.items) }
{
    put_exception_head(protocol, name, id, into)?;
    put_failure(protocol, text, code, into)
}

/// Appends the head of an exception.
#[tactic(auto, unfolding(crate::specs::Exception::exception_head))]
fn put_exception_head(
    protocol: Protocol,
    name: &[u8],
    id: i32,
    into: &mut Vec<u8>,
) -> Result<(), AllocError>
    requires { length name.now < 2 ^ 31 }
    ensures ok { OnOk result (into.new.items ≡ into.old.items ++ exception_head protocol name.now id) }
    ensures err { OnErr result (into.new.items ≡ into.old.items) }
{
    write_head(protocol, name, EXCEPTION, id, into)
}

/// Appends the struct of a failure.
#[tactic(auto, unfolding(crate::specs::Exception::failure_struct))]
fn put_failure(
    protocol: Protocol,
    text: &[u8],
    code: i32,
    into: &mut Vec<u8>,
) -> Result<(), AllocError>
    requires { length text.now < 2 ^ 31 }
    ensures ok { OnOk result
        (into.new.items ≡ into.old.items ++ failure_struct protocol (record { text = text.now; code = code })) }
    ensures err { OnErr result (take (vec_len into.old) into.new.items ≡ into.old.items) }
{
    match protocol {
        Protocol::Binary => put_binary_failure(text, code, into),
        Protocol::Compact => put_compact_failure(text, code, into),
    }
}

/// The header of a field of the binary protocol, of this type and id, and a number behind it.
#[inline(always)]
fn numbered_field(kind: u8, id: u8, number: i32) -> [u8; 7]
    ensures { result ≡ kind ∷ 0 ∷ id ∷ signed_bytes w32 number }
{
    let [a, b, c, d] = number.to_be_bytes();
    [kind, 0, id, a, b, c, d]
}

/// Appends the struct of a failure in the binary protocol: a string of id 1, an i32 of id 2, and the end.
fn put_binary_failure(text: &[u8], code: i32, into: &mut Vec<u8>) -> Result<(), AllocError>
    requires { length text.now < 2 ^ 31 }
    ensures ok { OnOk result
        (into.new.items ≡ into.old.items ++ failure_struct Protocol.Binary (record { text = text.now; code = code })) }
    ensures err { OnErr result (take (vec_len into.old) into.new.items ≡ into.old.items) }
{
    into.extend_from_slice(&numbered_field(11, 1, text.len() as i32))?;
    into.extend_from_slice(text)?;
    into.extend_from_slice(&numbered_field(8, 2, code))?;
    into.extend_from_slice(&[0])
}

/// Appends the struct of a failure in the compact protocol, in which both headers have the short form.
#[tactic(auto, unfolding(crate::specs::Exception::failure_struct))]
fn put_compact_failure(text: &[u8], code: i32, into: &mut Vec<u8>) -> Result<(), AllocError>
    requires { length text.now < 2 ^ 31 }
    ensures ok { OnOk result
        (into.new.items ≡ into.old.items ++ failure_struct Protocol.Compact (record { text = text.now; code = code })) }
    ensures err { OnErr result (take (vec_len into.old) into.new.items ≡ into.old.items) }
{
    put_text_field(text, into)?;
    put_code_field(code, into)?;
    into.extend_from_slice(&[0])
}

/// Appends the text's field in the compact protocol: 0x18 is the distance 1 and the type of strings.
#[tactic(auto, unfolding(crate::specs::Exception::compact_text_field))]
fn put_text_field(text: &[u8], into: &mut Vec<u8>) -> Result<(), AllocError>
    requires { length text.now < 2 ^ 31 }
    ensures ok { OnOk result (into.new.items ≡ into.old.items ++ compact_text_field text.now) }
    ensures err { OnErr result (take (vec_len into.old) into.new.items ≡ into.old.items) }
{
    into.extend_from_slice(&[0x18])?;
    put_name(text, into)
}

/// Appends the code's field in the compact protocol: 0x15 is the distance 1 and the type of an i32.
#[tactic(auto, unfolding(crate::specs::Exception::compact_code_field))]
fn put_code_field(code: i32, into: &mut Vec<u8>) -> Result<(), AllocError>
    ensures ok { OnOk result (into.new.items ≡ into.old.items ++ compact_code_field code) }
    ensures err { OnErr result (take (vec_len into.old) into.new.items ≡ into.old.items) }
{
    into.extend_from_slice(&[0x15])?;
    put_varint32(into, zigzag32(code))
}
