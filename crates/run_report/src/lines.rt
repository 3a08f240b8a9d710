//! The lines of a report but those of entries, each appended to a vector.

ghost use Rattle.std.specs.Prelude.{◌≡◌, ◌∷◌, [], ◌++◌, codes, length, OnOk};
ghost use Rattle.text_out.specs.Decimal.{decimal_of, natural_of};
ghost use Rattle.text_out.specs.Line.{line_of};
ghost use Rattle.streams.specs.Marks.{lent_mark};
ghost use Rattle.host_model.specs.Report.{cause_text, fault_text, mark_text, numbered};
ghost use Rattle.run_report.specs.Summary.{conn_text, listening_line};

use host_model::EndCause;
use std::alloc::AllocError;
use streams::{EnvelopeFault, MarkAt};
use text_out::{decimal, hex};

/// Appends the line of a mark.
pub(crate) fn put_mark(into: &mut Vec<u8>, mark: MarkAt<'_>) -> Result<(), AllocError>
    ensures { OnOk result (into.new.items ≡ into.old.items ++ line_of (mark_text (lent_mark mark.entry))) }
{
    match mark {
        MarkAt::Opened(c) => put_numbered(into, b"tape open", u64::from(c))?,
        MarkAt::Read(c, bytes) => put_moved(into, b"tape read", c, bytes)?,
        MarkAt::Ended(c) => put_numbered(into, b"tape end", u64::from(c))?,
        MarkAt::Wrote(c, bytes) => put_moved(into, b"tape wrote", c, bytes)?,
        MarkAt::ReadFailed(c) => put_numbered(into, b"tape readfail", u64::from(c))?,
        MarkAt::WriteFailed(c) => put_numbered(into, b"tape writefail", u64::from(c))?,
        MarkAt::Closed(c) => put_numbered(into, b"tape close", u64::from(c))?,
    }
    into.push(b'\n')?;
    Ok(())
}

/// Appends a word, a connection, and the number of bytes that moved.
fn put_moved(into: &mut Vec<u8>, word: &[u8], c: u32, bytes: &[u8]) -> Result<(), AllocError>
    ensures { OnOk result (into.new.items ≡ into.old.items ++ numbered (numbered word.now c) (length bytes.now)) }
{
    put_numbered(into, word, u64::from(c))?;
    put_next(into, bytes.len() as u64)
}

/// Appends a word, a blank and a number.
fn put_numbered(into: &mut Vec<u8>, word: &[u8], n: u64) -> Result<(), AllocError>
    ensures { OnOk result (into.new.items ≡ into.old.items ++ numbered word.now n) }
{
    into.extend_from_slice(word)?;
    put_next(into, n)
}

/// Appends a blank and a number.
fn put_next(into: &mut Vec<u8>, n: u64) -> Result<(), AllocError>
    ensures { OnOk result (into.new.items ≡ into.old.items ++ 32 ∷ natural_of n) }
{
    into.push(b' ')?;
    put_natural(into, n)
}

/// Appends a number, most of which have one digit.
fn put_natural(into: &mut Vec<u8>, n: u64) -> Result<(), AllocError>
    ensures { OnOk result (into.new.items ≡ into.old.items ++ natural_of n) }
{
    if n < 10 {
        into.push(b'0' + n as u8)?;
        return Ok(());
    }
    decimal(into, i128::from(n))
}

/// Appends a number that may be below 0.
fn put_integer(into: &mut Vec<u8>, n: i32) -> Result<(), AllocError>
    ensures { OnOk result (into.new.items ≡ into.old.items ++ decimal_of n) }
{
    decimal(into, i128::from(n))
}

/// Appends the front of a connection's line: its number and what it ended by, each with a blank behind it.
pub(crate) fn put_end(into: &mut Vec<u8>, c: u64, cause: EndCause) -> Result<(), AllocError>
    ensures { OnOk result (into.new.items ≡ into.old.items ++ numbered (codes "conn") c ++ 32 ∷ cause_text cause ++ 32 ∷ []) }
{
    put_conn(into, c, cause)?;
    into.push(b' ')?;
    Ok(())
}

/// Appends a connection's number and what it ended by.
pub(crate) fn put_conn(into: &mut Vec<u8>, c: u64, cause: EndCause) -> Result<(), AllocError>
    ensures { OnOk result (into.new.items ≡ into.old.items ++ conn_text c cause) }
{
    put_numbered(into, b"conn", c)?;
    into.push(b' ')?;
    put_cause(into, cause)
}

/// Appends why a connection ended.
fn put_cause(into: &mut Vec<u8>, cause: EndCause) -> Result<(), AllocError>
    ensures { OnOk result (into.new.items ≡ into.old.items ++ cause_text cause) }
{
    match cause {
        EndCause::End => into.extend_from_slice(b"End"),
        EndCause::Cut => into.extend_from_slice(b"Cut"),
        EndCause::SizeFault(size) => {
            into.extend_from_slice(b"SizeFault ")?;
            put_integer(into, size)
        }
        EndCause::Envelope(fault) => {
            into.extend_from_slice(b"Envelope ")?;
            put_fault(into, fault)
        }
        EndCause::ReadFault => into.extend_from_slice(b"ReadFault"),
        EndCause::WriteFault => into.extend_from_slice(b"WriteFault"),
        EndCause::NoMemory => into.extend_from_slice(b"NoMemory"),
        EndCause::Stopped => into.extend_from_slice(b"Stopped"),
    }
}

/// Appends why a message's head is refused.
fn put_fault(into: &mut Vec<u8>, fault: EnvelopeFault) -> Result<(), AllocError>
    ensures { OnOk result (into.new.items ≡ into.old.items ++ fault_text fault) }
{
    match fault {
        EnvelopeFault::Short => into.extend_from_slice(b"Short"),
        EnvelopeFault::Version(version) => {
            into.extend_from_slice(b"Version ")?;
            hex(into, &version.to_be_bytes())
        }
        EnvelopeFault::NameSize => into.extend_from_slice(b"NameSize"),
        EnvelopeFault::LongVarint => into.extend_from_slice(b"LongVarint"),
        EnvelopeFault::MessageType(kind) => put_numbered(into, b"MessageType", u64::from(kind)),
    }
}

/// Appends the line of the number of calls.
pub(crate) fn put_count(into: &mut Vec<u8>, count: u64) -> Result<(), AllocError>
    ensures { OnOk result (into.new.items ≡ into.old.items ++ line_of (numbered (codes "calls") count)) }
{
    put_numbered(into, b"calls", count)?;
    into.push(b'\n')?;
    Ok(())
}

/// Appends the line that tells at which port connections are awaited.
#[tactic(auto, unfolding(crate::specs::Summary::listening_line))]
pub(crate) fn put_listening(into: &mut Vec<u8>, port: u16) -> Result<(), AllocError>
    ensures { OnOk result (into.new.items ≡ into.old.items ++ listening_line port) }
{
    put_address(into, port)?;
    into.push(b'\n')?;
    Ok(())
}

/// Appends what that line says.
fn put_address(into: &mut Vec<u8>, port: u16) -> Result<(), AllocError>
    ensures { OnOk result (into.new.items ≡ into.old.items ++ (codes "listening 127.0.0.1:" ++ natural_of port)) }
{
    into.extend_from_slice(b"listening 127.0.0.1:")?;
    put_port(into, port)?;
    Ok(())
}

/// Appends a port.
fn put_port(into: &mut Vec<u8>, port: u16) -> Result<(), AllocError>
    ensures { OnOk result (into.new.items ≡ into.old.items ++ natural_of port) }
{
    decimal(into, i128::from(port))
}
