//! The line that tells what a call came to.

ghost use Rattle.std.specs.Prelude.{◌≡◌, ◌∷◌, ◌++◌, IfOk, OnOk};
ghost use Rattle.client_desk.specs.HeardOf.{plain_heard};
ghost use Rattle.host_model.specs.Report.{blank};
ghost use Rattle.port_calls.specs.HeardText.{heard_line, heard_text};
ghost use Rattle.text_out.specs.Decimal.{decimal_of};
ghost use Rattle.thrift_value.specs.TreeOf.{tree_of};
ghost use Rattle.value_text.specs.ValueText.{tree_text};

use client_desk::Heard;
use std::alloc::{AllocError, Global};
use text_out::decimal;
use thrift_value::Value;
use value_text::put_value;

/// The line of a call to which nothing is answered.
pub(crate) const SENT: &[u8] = b"sent\n";

/// Appends what was heard.
fn put_heard(line: &mut Vec<u8>, heard: Heard) -> Result<(), AllocError>
    ensures { OnOk result (line.new.items ≡ line.old.items ++ heard_text (plain_heard heard)) }
{
    match heard {
        Heard::Success(value) => {
            line.extend_from_slice(b"ok ")?;
            put_value(line, &value)
        }
        Heard::Void => line.extend_from_slice(b"empty"),
        Heard::Missing => line.extend_from_slice(b"missing"),
        Heard::Throws(id, value) => {
            line.extend_from_slice(b"throws ")?;
            put_numbered(line, i128::from(id), &value)
        }
        Heard::Exception(code, text) => {
            line.extend_from_slice(b"exception ")?;
            put_numbered(line, i128::from(code), &Value::Bytes(text))
        }
    }
}

/// Appends a number and a value, with a blank between them.
fn put_numbered(line: &mut Vec<u8>, number: i128, value: &Value) -> Result<(), AllocError>
    ensures { OnOk result (line.new.items ≡ line.old.items ++ (decimal_of number ++ blank ∷ tree_text (tree_of value.now))) }
{
    decimal(line, number)?;
    line.push(b' ')?;
    put_value(line, value)
}

/// What was heard, as a line.
pub(crate) fn heard_line(alloc: Global, heard: Heard) -> Result<Vec<u8>, AllocError>
    ensures { IfOk result (λ line. line.items ≡ heard_line (plain_heard heard)) }
{
    let mut line = Vec::new(alloc);
    put_heard(&mut line, heard)?;
    line.push(b'\n')?;
    Ok(line)
}
