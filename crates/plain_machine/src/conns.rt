//! A connection, and what happens on it.

ghost use Rattle.std.specs.Prelude.{◌≡◌, ◌&&◌, not, ◌++◌, ◌∷◌, [], Some, IfOk, option_map};
ghost use Rattle.streams.specs.declared.marks.Mark.TheVariants.{Wrote, Closed};
ghost use Rattle.host_model.specs.World.{end_behind};
ghost use Rattle.machine_model.specs.Loop.{new_conn, read_more, marks_read};
ghost use Rattle.machine_model.specs.Plain.{is_empty, owes_nothing, stays_in_size, is_given_up, ended_plain, reads_plain, ends_plain, fails_read_plain, writes_plain, fails_write_plain, gives_up_plain, progress_by, progress_plain};
ghost use Rattle.plain_machine.specs.Seen.{conn_of, seen_progress};

use crate::progress::{PlainProgress, progress_by};
use host_model::EndCause;
use std::alloc::{AllocError, Global};
use streams::{Bytes, Mark};

/// A connection.
#[derive(Drop)]
pub struct PlainConn {
    /// The payloads read whole.
    pub payloads: Vec<Vec<u8>>,
    /// The bytes read behind them.
    pub held: Vec<u8>,
    /// How many payloads were submitted.
    pub submitted: u64,
    /// How many of them were collected.
    pub collected: u64,
    /// What isn't written of the last reply.
    pub left: Vec<u8>,
    /// Why it has ended, where it has.
    pub cause: Option<EndCause>,
}

impl PlainConn {
    /// Makes a connection on which nothing has happened; takes no memory.
    pub fn new(alloc: Global) -> Self
        ensures { conn_of result ≡ new_conn }
    {
        PlainConn {
            payloads: Vec::new(alloc),
            held: Vec::new(alloc),
            submitted: 0,
            collected: 0,
            left: Vec::new(alloc),
            cause: None,
        }
    }
}

/// Whether nothing is owed to a connection.
fn owes_nothing(conn: &PlainConn) -> bool
    ensures { result ≡ owes_nothing (conn_of conn.now) }
{
    conn.collected == conn.payloads.len() as u64 && conn.left.is_empty()
}

/// Whether bytes behind those held don't pass the end of a size that is under way.
fn stays_in_size(held: &[u8], bytes: &[u8]) -> bool
    ensures { result ≡ stays_in_size held.now bytes.now }
{
    if held.len() < 4 {
        return bytes.len() <= 4 - held.len();
    }
    true
}

/// One mark alone.
fn alone(alloc: Global, mark: Mark) -> Result<Vec<Mark>, AllocError>
    ensures { IfOk result (λ marks. marks.items ≡ mark ∷ []) }
{
    let mut marks = Vec::new(alloc);
    marks.push(mark)?;
    Ok(marks)
}

/// The marks of a connection that is closed.
pub fn closing(alloc: Global, c: u32) -> Result<Vec<Mark>, AllocError>
    ensures { IfOk result (λ marks. marks.items ≡ Closed c ∷ []) }
{
    alone(alloc, Mark::Closed(c))
}

/// It has ended by this cause; returns the marks that say so.
fn ended(
    alloc: Global,
    c: u32,
    conn: &mut PlainConn,
    mark: Mark,
    cause: EndCause,
) -> Result<Option<Vec<Mark>>, AllocError>
    ensures { IfOk result (λ marks. option_map (λ m. (conn_of conn.new, m.items)) marks ≡ ended_plain c (conn_of conn.old) mark cause) }
{
    conn.cause = Some(cause);
    let mut marks = alone(alloc, mark)?;
    marks.push(Mark::Closed(c))?;
    Ok(Some(marks))
}

/// Whether it may read bytes.
fn may_read(conn: &PlainConn, bytes: &[u8]) -> bool
    ensures { result ≡ (owes_nothing (conn_of conn.now) && (not (is_empty bytes.now) && stays_in_size (conn_of conn.now).held bytes.now)) }
{
    owes_nothing(conn) && !bytes.is_empty() && stays_in_size(conn.held.as_slice(), bytes)
}

/// It reads bytes, where it may; returns the marks of that.
pub fn reads(
    alloc: Global,
    max: u32,
    c: u32,
    bytes: &[u8],
    conn: &mut PlainConn,
) -> Result<Option<Vec<Mark>>, AllocError>
    ensures { IfOk result (λ marks. option_map (λ m. (conn_of conn.new, m.items)) marks ≡ reads_plain max c bytes.now (conn_of conn.old)) }
{
    if !may_read(conn, bytes) {
        return Ok(None);
    }
    match progress_with(alloc, max, conn.held.as_slice(), bytes)? {
        None => Ok(None),
        Some(progress) => read_more(alloc, c, conn, bytes, progress),
    }
}

/// What bytes make behind those held, where they make anything.
fn progress_with(
    alloc: Global,
    max: u32,
    held: &[u8],
    bytes: &[u8],
) -> Result<Option<PlainProgress>, AllocError>
    ensures { IfOk result (λ progress. option_map seen_progress progress ≡ progress_by max (held.now ++ bytes.now)) }
{
    let mut together = Vec::from_slice(alloc, held)?;
    together.extend_from_slice(bytes)?;
    progress_by(alloc, max, together.as_slice())
}

/// It has read bytes that make this; returns the marks of that.
fn read_more(
    alloc: Global,
    c: u32,
    conn: &mut PlainConn,
    bytes: &[u8],
    progress: PlainProgress,
) -> Result<Option<Vec<Mark>>, AllocError>
    ensures { IfOk result (λ marks. option_map (λ m. (conn_of conn.new, m.items)) marks ≡ progress_plain c (conn_of conn.old) bytes.now (Some (seen_progress progress))) }
{
    let marks = marks_read(alloc, c, bytes, &progress)?;
    holds_more(alloc, conn, bytes, progress)?;
    Ok(Some(marks))
}

/// The marks of bytes read that make this.
fn marks_read(
    alloc: Global,
    c: u32,
    bytes: &[u8],
    progress: &PlainProgress,
) -> Result<Vec<Mark>, AllocError>
    ensures { IfOk result (λ marks. marks.items ≡ marks_read c bytes.now (seen_progress progress.now)) }
{
    let read = Mark::Read(c, Bytes::new(Vec::from_slice(alloc, bytes)?));
    let mut marks = alone(alloc, read)?;
    if let PlainProgress::BadSize(_) = progress {
        marks.push(Mark::Closed(c))?;
    }
    Ok(marks)
}

/// A connection has read bytes that make this.
fn holds_more(
    alloc: Global,
    conn: &mut PlainConn,
    bytes: &[u8],
    progress: PlainProgress,
) -> Result<(), AllocError>
    ensures { IfOk result (λ done. conn_of conn.new ≡ read_more (conn_of conn.old) bytes.now (seen_progress progress)) }
{
    match progress {
        PlainProgress::Part => conn.held.extend_from_slice(bytes),
        PlainProgress::BadSize(size) => {
            conn.cause = Some(EndCause::SizeFault(size));
            conn.held.extend_from_slice(bytes)
        }
        PlainProgress::Whole(payload) => {
            conn.held = Vec::new(alloc);
            conn.payloads.push(payload)?;
            Ok(())
        }
    }
}

/// The cause of an input that ends after these bytes.
fn end_behind(held: &[u8]) -> EndCause
    ensures { result ≡ end_behind held.now }
{
    if held.is_empty() {
        EndCause::End
    } else {
        EndCause::Cut
    }
}

/// Its input ends, where it may; returns the marks of that.
pub fn ends(alloc: Global, c: u32, conn: &mut PlainConn) -> Result<Option<Vec<Mark>>, AllocError>
    ensures { IfOk result (λ marks. option_map (λ m. (conn_of conn.new, m.items)) marks ≡ ends_plain c (conn_of conn.old)) }
{
    if !owes_nothing(conn) {
        return Ok(None);
    }
    let cause = end_behind(conn.held.as_slice());
    ended(alloc, c, conn, Mark::Ended(c), cause)
}

/// A read fails, where it may; returns the marks of that.
pub fn fails_read(
    alloc: Global,
    c: u32,
    conn: &mut PlainConn,
) -> Result<Option<Vec<Mark>>, AllocError>
    ensures { IfOk result (λ marks. option_map (λ m. (conn_of conn.new, m.items)) marks ≡ fails_read_plain c (conn_of conn.old)) }
{
    if !owes_nothing(conn) {
        return Ok(None);
    }
    ended(alloc, c, conn, Mark::ReadFailed(c), EndCause::ReadFault)
}

/// The mark of bytes that were written.
fn marks_written(alloc: Global, c: u32, bytes: &[u8]) -> Result<Vec<Mark>, AllocError>
    ensures { IfOk result (λ marks. marks.items ≡ Wrote c bytes.now ∷ []) }
{
    alone(
        alloc,
        Mark::Wrote(c, Bytes::new(Vec::from_slice(alloc, bytes)?)),
    )
}

/// So many bytes of its reply are written, where they are left; returns the marks of that.
pub fn writes(
    alloc: Global,
    c: u32,
    count: usize,
    conn: &mut PlainConn,
) -> Result<Option<Vec<Mark>>, AllocError>
    ensures { IfOk result (λ marks. option_map (λ m. (conn_of conn.new, m.items)) marks ≡ writes_plain c count (conn_of conn.old)) }
{
    if count == 0 || conn.left.len() < count {
        return Ok(None);
    }
    let (written, left) = conn.left.as_slice().split_at(count);
    let marks = marks_written(alloc, c, written)?;
    conn.left = Vec::from_slice(alloc, left)?;
    Ok(Some(marks))
}

/// A write fails, where a reply is left; returns the marks of that.
pub fn fails_write(
    alloc: Global,
    c: u32,
    conn: &mut PlainConn,
) -> Result<Option<Vec<Mark>>, AllocError>
    ensures { IfOk result (λ marks. option_map (λ m. (conn_of conn.new, m.items)) marks ≡ fails_write_plain c (conn_of conn.old)) }
{
    if conn.left.is_empty() {
        return Ok(None);
    }
    ended(alloc, c, conn, Mark::WriteFailed(c), EndCause::WriteFault)
}

/// Whether a connection is given up from outside by this cause.
fn is_given_up(cause: EndCause) -> bool
    ensures { result ≡ is_given_up cause }
{
    matches!(cause, EndCause::NoMemory | EndCause::Stopped)
}

/// It is given up, where the cause is one from outside; returns the marks of that.
pub fn gives_up(
    alloc: Global,
    c: u32,
    cause: EndCause,
    conn: &mut PlainConn,
) -> Result<Option<Vec<Mark>>, AllocError>
    ensures { IfOk result (λ marks. option_map (λ m. (conn_of conn.new, m.items)) marks ≡ gives_up_plain c cause (conn_of conn.old)) }
{
    if !is_given_up(cause) {
        return Ok(None);
    }
    conn.cause = Some(cause);
    Ok(Some(closing(alloc, c)?))
}
