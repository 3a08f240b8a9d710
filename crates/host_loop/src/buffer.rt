//! The buffer into which connections are read.

ghost use Rattle.std.specs.Prelude.{◌≡◌, ◌≤◌, IfOk, length};
ghost use Rattle.conn_state.specs.Phase.{wanted};
ghost use Rattle.conn_table.specs.Table.{slot_of};
ghost use Rattle.loop_conns.specs.Going.{SomeLoopIsRunning, KeepsGoing, ReadsAt, ReadTells};
ghost use Rattle.call_rules.specs.Desks.{longest_payload};

use limits::MOST_READ;
use loop_conns::{LoopConnections, ReadStep};
use outside::Links;
use std::alloc::{AllocError, Global};
use std::marker::Model;

/// A buffer of as many bytes as a connection may want at once. Contracts see their number.
#[derive(Drop)]
pub(crate) struct Buffer {
    bytes: Vec<u8>,
}

impl Model for Buffer {
    ghost use Rattle.std.specs.Prelude.{◌≡◌, ℕ, length};
    ghost use Rattle.conn_state.specs.Phase.{most_read};

    ghost Value = { ℕ };

    ghost view = { λ b. length b.bytes.items };

    ghost invariant = { λ b. length b.bytes.items ≡ most_read };
}

/// Makes so many bytes.
fn zeros(alloc: Global, size: usize) -> Result<Vec<u8>, AllocError>
    ensures { IfOk result (λ bytes. length bytes.items ≡ size) }
{
    vec![in alloc; 0u8; size]
}

impl Buffer {
    /// Takes a buffer.
    pub(crate) fn new(alloc: Global) -> Result<Buffer, AllocError> {
        let bytes = zeros(alloc, MOST_READ)?;
        Ok(Buffer { bytes })
    }

    /// Reads once from a connection, into as many bytes as it wants.
    pub(crate) fn read<L: Links>(
        &mut self,
        conns: &mut LoopConnections,
        links: &mut L,
        c: u32,
        count: usize,
        max_frame: u32,
    ) -> ReadStep
        requires under_way { SomeLoopIsRunning max_frame (L.state links.old) conns.old }
        requires reads { ReadsAt c conns.old }
        requires count { count ≡ wanted (slot_of c conns.old.table.slots).conn.phase }
        requires small { max_frame ≤ longest_payload }
        ensures going { KeepsGoing max_frame (L.state links.old) conns.old (L.state links.new) conns.new }
        ensures step { ReadTells c conns.new result }
        ensures budget { conns.new.table.budget ≡ conns.old.table.budget }
        ensures plan { L.plan links.new ≡ L.plan links.old }
    {
        let into = &mut self.bytes[..count];
        conns.read(links, c, into, max_frame)
    }
}
