//! The trait of what makes links and pipes.

ghost use Rattle.std.specs.Prelude.{◌≡◌, ℕ, List, Option, IfOk, IsSome};
ghost use Rattle.streams.specs.Cause.{next_if_faulty};
ghost use Rattle.outside.specs.Binding.{PastLinks, StartListening, HasBindCause, HandedOut, HandsOut, one_more_back, told_past};
ghost use Rattle.outside.specs.Calling.{PastPipe, StartsCalling, told_called, next_if_either};

use crate::links::Links;
use crate::pipe::Pipe;
use std::alloc::Global;
use thiserror::Error;

/// Why no links and no pipe were made.
#[derive(Clone, Copy, Debug, PartialEq, Eq, Error)]
pub enum BindFail {
    /// The port can't be listened at, or not dialled, and the count of faults rose.
    #[error("the port can't be listened at, or not dialled")]
    Failed,
    /// There was no memory for the links or the pipe.
    #[error("there is no memory for the connection")]
    NoMemory,
}

/// Makes links that listen at a port, and pipes to a port, and takes them back.
pub trait Binder {
    /// The links that it makes.
    type L: Links + Drop;
    /// The pipes that it dials.
    type P: Pipe;

    // The links that came back, the oldest first, where they are told.
    ghost past: { Self → Option (List PastLinks) };
    // The pipes that were hung up, the oldest first, where they are told.
    ghost called: { Self → Option (List PastPipe) };
    // How many faults were counted, here and of links and pipes that came back; the count stands still at 2^64 - 1.
    ghost faults: { Self → ℕ };
    // How many links and pipes it has handed out, and how many of them have come back; this is always told.
    ghost handed: { Self → HandedOut };

    /// Links that listen at this port, and open at most `accept` connections. The room that it takes to have them back is taken here.
    fn listen(&mut self, alloc: Global, port: u16, accept: u32) -> Result<Self::L, BindFail>
        ensures made { IfOk result (λ links. StartListening (past self.old) (record { port = port; accept = accept }) (Self.L.state links)) }
        ensures same { past self.new ≡ past self.old }
        ensures called_same { called self.new ≡ called self.old }
        ensures handed { HandsOut (handed self.old) (handed self.new) result }
        ensures cause { HasBindCause (faults self.old) (faults self.new) result };

    /// Takes links back that it made. It takes no memory, and can't fail.
    fn take_back(&mut self, links: Self::L)
        requires { IsSome (Self.L.state links).listens }
        ensures past { past self.new ≡ told_past (past self.old) (Self.L.state links) }
        ensures called_same { called self.new ≡ called self.old }
        ensures handed { handed self.new ≡ one_more_back (handed self.old) }
        ensures cause { faults self.new ≡ next_if_faulty (Self.L.state links).net_faults (faults self.old) };

    /// A pipe to this port. The room that it takes to hang it up is taken here.
    fn dial(&mut self, alloc: Global, port: u16) -> Result<Self::P, BindFail>
        ensures made { IfOk result (λ pipe. StartsCalling (called self.old) port (Self.P.state pipe)) }
        ensures same { called self.new ≡ called self.old }
        ensures past_same { past self.new ≡ past self.old }
        ensures handed { HandsOut (handed self.old) (handed self.new) result }
        ensures cause { HasBindCause (faults self.old) (faults self.new) result };

    /// Hangs a pipe up that it dialled. It takes no memory, and can't fail.
    fn hang_up(&mut self, pipe: Self::P)
        ensures called { called self.new ≡ told_called (called self.old) (Self.P.state pipe) }
        ensures past_same { past self.new ≡ past self.old }
        ensures handed { handed self.new ≡ one_more_back (handed self.old) }
        ensures cause { faults self.new ≡ next_if_either (Self.P.state pipe).read_faults (Self.P.state pipe).write_faults (faults self.old) };
}
