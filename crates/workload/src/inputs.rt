//! The bytes of each connection.

ghost use Rattle.std.specs.Prelude.{◌≡◌, ◌<◌, ◌≤◌, ◌++◌, ◌==◌, ◌%◌, [], OnOk, IfOk, if◌then◌else◌};
ghost use Rattle.workload.specs.CallFrames.{frame_by};
ghost use Rattle.workload.specs.LoadPlan.{connections_of, bytes_on, all_bytes};

use crate::frames::{number_after, put_frame};
use std::alloc::{AllocError, Global};
use streams::Bytes;

/// The number of connections of a workload of so many frames.
pub fn connections_of(size: u32) -> u32
    ensures { result ≡ connections_of size }
{
    if size < 8 {
        return size;
    }
    8
}

/// The bytes of each connection, by rising number.
pub(crate) fn all_bytes(alloc: Global, seed: u64, size: u32) -> Result<Vec<Bytes>, AllocError>
    requires { size ≤ 1000000 }
    ensures { IfOk result (λ all. all.items ≡ all_bytes seed size) }
{
    let n = connections_of(size);
    let mut all = Vec::new(alloc);
    for c in 0..n {
        all.push(Bytes::new(bytes_on(alloc, seed, size, n, c)?))?;
    }
    Ok(all)
}

/// The bytes of connection c of n.
fn bytes_on(alloc: Global, seed: u64, size: u32, n: u32, c: u32) -> Result<Vec<u8>, AllocError>
    requires some { 0 < n }
    requires few { size ≤ 1000000 }
    ensures { IfOk result (λ bytes. bytes.items ≡ bytes_on seed size n c) }
{
    let mut bytes = Vec::new(alloc);
    let mut x = seed;
    for k in 0..size {
        x = number_after(x);
        put_if_on(&mut bytes, k, x, n, c)?;
    }
    Ok(bytes)
}

/// Appends frame k where it stands on connection c of n.
fn put_if_on(bytes: &mut Vec<u8>, k: u32, x: u64, n: u32, c: u32) -> Result<(), AllocError>
    requires some { 0 < n }
    requires few { k < 1000000 }
    ensures { OnOk result (bytes.new.items ≡ bytes.old.items ++ (if k % n == c then frame_by k x else [])) }
{
    if k % n == c {
        return put_frame(bytes, k, x);
    }
    Ok(())
}
