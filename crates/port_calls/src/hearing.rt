//! A frame that comes in on a pipe.

ghost use Rattle.std.specs.Prelude.{◌≡◌, ◌<◌, ◌≤◌, ◌^◌, pos, length, MatchOption};
ghost use Rattle.host_model.specs.Frames.{size_bytes, IsOutside};
ghost use Rattle.port_calls.specs.Exchanging.{HasHeard, HasHeardFrame, fault_of};
ghost use Rattle.port_calls.specs.declared.hearing.Unheard.TheVariants.{NetFault, NoMemory};

use crate::asking_fault::AskingFault;
use host_model::laws::less_than_a_frame;
use outside::Pipe;
use std::alloc::{AllocError, Global};
use streams::Failed;

/// Why bytes weren't read.
#[derive(Clone, Copy)]
pub(crate) enum Unheard {
    /// A read failed.
    NetFault,
    /// Memory ran out.
    NoMemory,
}

impl From<AllocError> for Unheard {
    ghost from_gives = { λ _ e. e ≡ NoMemory };

    fn from(_: AllocError) -> Unheard {
        Unheard::NoMemory
    }
}

impl From<Failed> for Unheard {
    ghost from_gives = { λ _ e. e ≡ NetFault };

    fn from(_: Failed) -> Unheard {
        Unheard::NetFault
    }
}

impl From<Unheard> for AskingFault {
    ghost from_gives = { λ unheard e. e ≡ fault_of unheard };

    fn from(unheard: Unheard) -> AskingFault {
        match unheard {
            Unheard::NetFault => AskingFault::NetFault,
            Unheard::NoMemory => AskingFault::NoMemory,
        }
    }
}

/// Reads so many bytes, or as many as there are before the end, by reads into `room`.
fn hear<P: Pipe>(
    alloc: Global,
    pipe: &mut P,
    room: &mut [u8],
    want: usize,
) -> Result<Vec<u8>, Unheard>
    requires { 0 < length room.old }
    ensures heard { HasHeard want (λ v. v.items) (P.state pipe.old) (P.state pipe.new) result }
    ensures room { length room.new ≡ length room.old }
{
    let mut bytes = Vec::new(alloc);
    'reads: while bytes.len() < want {
        let lent = (want - bytes.len()).min(room.len());
        bytes.reserve(lent)?;
        let count = pipe.receive(&mut room[..lent])?;
        if count == 0 {
            return Ok(bytes);
        }
        bytes.extend_from_slice(&room[..count]).unwrap();
    }
    Ok(bytes)
}

/// The size that four bytes spell.
fn size_of(bytes: &[u8]) -> i32
    requires { length bytes.now ≡ 4 }
    ensures { size_bytes result ≡ bytes.now }
{
    let (size, _) = bytes.split_first_chunk::<4>().unwrap();
    i32::from_be_bytes(*size)
}

/// How many bytes the payload of a frame of this size has, where a frame may have it.
fn payload_length(size: i32, most: u32) -> Option<u32>
    requires { most < 2 ^ 31 }
    ensures { MatchOption result (IsOutside most size) (λ count. (1 ≤ count) × (count ≤ most) × (pos count ≡ size)) }
{
    if size < 1 {
        return None;
    }
    let count = size as u32;
    if count > most {
        return None;
    }
    Some(count)
}

/// Reads one frame of a payload of at most so many bytes, and no byte behind it.
pub(crate) fn hear_frame<P: Pipe>(
    alloc: Global,
    pipe: &mut P,
    room: &mut [u8],
    most: u32,
) -> Result<Vec<u8>, AskingFault>
    requires room { 0 < length room.old }
    requires most { most < 2 ^ 31 }
    ensures heard { HasHeardFrame most (λ v. v.items) (P.state pipe.old) (P.state pipe.new) result }
{
    less_than_a_frame();
    let size = hear(alloc, pipe, room, 4)?;
    if size.len() < 4 {
        return Err(AskingFault::Cut);
    }
    let size = size_of(size.as_slice());
    let Some(count) = payload_length(size, most) else {
        return Err(AskingFault::SizeFault(size));
    };
    let payload = hear(alloc, pipe, room, count as usize)?;
    if payload.len() < count as usize {
        return Err(AskingFault::Cut);
    }
    Ok(payload)
}
