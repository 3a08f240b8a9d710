//! One exchange with a port.

ghost use Rattle.std.specs.Prelude.{◌≡◌, ◌<◌, ◌^◌, length, IfOk};
ghost use Rattle.port_calls.specs.Exchanging.{HasTalked};
ghost use Rattle.port_calls.specs.Asked.{MeansAsked, HasAskingCause};

use crate::asking_fault::AskingFault;
use crate::hearing::hear_frame;
use crate::sending::send_all;
use limits::MOST_READ;
use outside::{BindFail, Binder, Pipe};
use std::alloc::{AllocError, Global};

/// Dials a port, sends this frame, reads one frame back whose payload has 1 to `most` bytes where `waits` says that one is awaited, and hangs up. It gives the
/// payload that was read, if one was awaited, and reads no byte behind it.
///
/// # Errors
///
/// Cut comes where the input ends before the frame does, SizeFault where the four bytes of the size spell one that no frame has; NetFault only where the binder's
/// count of faults rose; NoMemory may come too.
pub fn ask_port<B: Binder>(
    alloc: Global,
    binder: &mut B,
    port: u16,
    frame: &[u8],
    waits: bool,
    most: u32,
) -> Result<Option<Vec<u8>>, AskingFault>
    requires { most < 2 ^ 31 }
    ensures called { MeansAsked (λ v. v.items)
        (record { called = B.called binder.old; handed = B.handed binder.old })
        (record { called = B.called binder.new; handed = B.handed binder.new })
        port frame.now waits most result }
    ensures past { B.past binder.new ≡ B.past binder.old }
    ensures cause { HasAskingCause (B.faults binder.old) (B.faults binder.new) result }
{
    let mut room = make_room(alloc)?;
    match binder.dial(alloc, port) {
        Ok(pipe) => {
            let mut pipe = pipe;
            let result = talk(alloc, &mut pipe, frame, waits, most, room.as_mut_slice());
            binder.hang_up(pipe);
            result
        }
        Err(BindFail::Failed) => Err(AskingFault::NetFault),
        Err(BindFail::NoMemory) => Err(AskingFault::NoMemory),
    }
}

/// Bytes to read into.
fn make_room(alloc: Global) -> Result<Vec<u8>, AllocError>
    ensures { IfOk result (λ room. 0 < length room.items) }
{
    vec![in alloc; 0u8; MOST_READ]
}

/// Sends a frame, and reads one, where one is awaited.
fn talk<P: Pipe>(
    alloc: Global,
    pipe: &mut P,
    frame: &[u8],
    waits: bool,
    most: u32,
    room: &mut [u8],
) -> Result<Option<Vec<u8>>, AskingFault>
    requires room { 0 < length room.old }
    requires most { most < 2 ^ 31 }
    ensures talked { HasTalked (λ v. v.items) frame.now waits most (P.state pipe.old) (P.state pipe.new) result }
{
    send_all(pipe, frame)?;
    if !waits {
        return Ok(None);
    }
    let payload = hear_frame(alloc, pipe, room, most)?;
    Ok(Some(payload))
}
