//! The numbers and the frames of a workload.

ghost use Rattle.std.specs.Prelude.{◌≡◌, ◌<◌, ◌^◌, ◌++◌, length, OnOk};
ghost use Rattle.workload.specs.Numbers.{number_after, first_number, second_number};
ghost use Rattle.workload.specs.CallFrames.{call_head, number_field, work_struct, add_frame, subtract_frame, frame_by};

use envelope::{Protocol, write_head};
use std::alloc::AllocError;
use wire_num::put_i32;

/// The type of a call.
const CALL: u8 = 1;

/// The number behind another one.
pub(crate) fn number_after(x: u64) -> u64
    ensures { result ≡ number_after x }
{
    ((u128::from(x) * 6_364_136_223_846_793_005 + 1_442_695_040_888_963_407) % (1 << 64)) as u64
}

/// The first of the two numbers that a call passes.
fn first_number(x: u64) -> u32
    ensures is { result ≡ first_number x }
    ensures small { result < 2 ^ 16 }
{
    (x / (1 << 48)) as u32
}

/// The second one.
fn second_number(x: u64) -> u32
    ensures is { result ≡ second_number x }
    ensures small { result < 2 ^ 16 }
{
    ((x / (1 << 32)) % (1 << 16)) as u32
}

/// Appends frame k, by the number that it is made of.
pub(crate) fn put_frame(into: &mut Vec<u8>, k: u32, x: u64) -> Result<(), AllocError>
    requires { k < 2 ^ 31 }
    ensures { OnOk result (into.new.items ≡ into.old.items ++ frame_by k x) }
{
    if k % 2 == 0 {
        return put_add(into, k, first_number(x), second_number(x));
    }
    put_subtract(into, k, first_number(x), second_number(x))
}

/// Appends the frame that calls add(a, b).
fn put_add(into: &mut Vec<u8>, k: u32, a: u32, b: u32) -> Result<(), AllocError>
    requires id { k < 2 ^ 31 }
    requires first { a < 2 ^ 31 }
    requires second { b < 2 ^ 31 }
    ensures { OnOk result (into.new.items ≡ into.old.items ++ add_frame k a b) }
{
    put_i32(into, 30)?;
    put_head(into, b"add", k)?;
    put_number(into, 1, a)?;
    put_number(into, 2, b)?;
    into.push(0)?;
    Ok(())
}

/// Appends the frame that calls calculate(k, w), where w takes b from a.
fn put_subtract(into: &mut Vec<u8>, k: u32, a: u32, b: u32) -> Result<(), AllocError>
    requires id { k < 2 ^ 31 }
    requires first { a < 2 ^ 31 }
    requires second { b < 2 ^ 31 }
    ensures { OnOk result (into.new.items ≡ into.old.items ++ subtract_frame k a b) }
{
    put_i32(into, 54)?;
    put_head(into, b"calculate", k)?;
    put_number(into, 1, k)?;
    into.extend_from_slice(&[12, 0, 2])?;
    put_work(into, a, b)?;
    into.push(0)?;
    Ok(())
}

/// Appends the head of a call.
fn put_head(into: &mut Vec<u8>, method: &[u8], k: u32) -> Result<(), AllocError>
    requires name { length method.now < 2 ^ 31 }
    requires id { k < 2 ^ 31 }
    ensures { OnOk result (into.new.items ≡ into.old.items ++ call_head method.now k) }
{
    write_head(Protocol::Binary, method, CALL, k as i32, into)
}

/// Appends the struct of a work that takes b from a.
fn put_work(into: &mut Vec<u8>, a: u32, b: u32) -> Result<(), AllocError>
    requires first { a < 2 ^ 31 }
    requires second { b < 2 ^ 31 }
    ensures { OnOk result (into.new.items ≡ into.old.items ++ work_struct a b) }
{
    put_number(into, 1, a)?;
    put_number(into, 2, b)?;
    put_number(into, 3, 2)?;
    into.push(0)?;
    Ok(())
}

/// Appends a field that holds an i32.
fn put_number(into: &mut Vec<u8>, id: u8, number: u32) -> Result<(), AllocError>
    requires { number < 2 ^ 31 }
    ensures { OnOk result (into.new.items ≡ into.old.items ++ number_field id number) }
{
    into.extend_from_slice(&[8, 0, id])?;
    put_i32(into, number as i32)
}
