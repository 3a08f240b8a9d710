//! The system's streams and files, of which no contract tells what they give and take.

use std::alloc::Global;
use std::io;
use std::test::Fail;
use streams::{Failed, FileFail, Files, RealFiles, RealIn, RealOut, Sink, Source, write_all};

/// A writer that takes nothing.
#[derive(Drop)]
struct Full;

impl io::Write for Full {
    fn write(&mut self, _bytes: &[u8]) -> io::Result<usize> {
        Ok(0)
    }

    fn flush(&mut self) -> io::Result<()> {
        Ok(())
    }
}

#[test]
fn streams_give_and_take(rt: HostRuntime) -> Result<(), Fail> {
    let mut input = RealIn::over(b"in".as_slice());
    let mut into = [0u8; 4];
    assert!(rt; input.read(&mut into) == Ok(2));
    assert!(rt; input.read(&mut into) == Ok(0));
    let mut closed = RealOut::over(Full);
    assert!(rt; closed.write(b"x") == Err(Failed));
    assert!(rt; closed.write(b"") == Ok(0));
    assert!(rt; closed.faults() == 1);
    assert!(rt; RealIn::new(&rt).faults() == 0);
    assert!(rt; RealOut::output(&rt).write(b"") == Ok(0));
    assert!(rt; RealOut::errors(&rt).faults() == 0);
    Ok(())
}

/// A file's path, how many bytes it may have, and what reading it comes to.
type ReadRow = (&'static str, usize, Result<&'static [u8], FileFail>);

const FILES: [ReadRow; 3] = [
    ("/dev/null", 0, Ok(b"")),
    ("/dev/zero", 9, Err(FileFail::TooLong)),
    ("/no/such/file", 9, Err(FileFail::Absent)),
];

/// Whether reading a file comes to what its row says.
fn is_read(alloc: Global, files: &mut RealFiles<'_>, row: &ReadRow) -> bool {
    match (files.read_whole(alloc, row.0, row.1), row.2) {
        (Ok(file), Ok(bytes)) => file.as_slice() == bytes,
        (Err(found), Err(cause)) => found == cause,
        _ => false,
    }
}

#[test]
fn files_are_read_by_their_paths(rt: HostRuntime) {
    let mut files = RealFiles::new(&rt);
    for row in &FILES {
        assert!(rt; is_read(rt.alloc(), &mut files, row));
    }
    assert!(rt; files.faults() == 0);
    assert!(rt; is_read(rt.alloc(), &mut files, &("/", 9, Err(FileFail::Failed))));
    assert!(rt; files.faults() == 1);
}

/// Makes a file, writes these bytes, and hands its sink back; answers whether they were written.
fn write_file(
    alloc: Global,
    files: &mut RealFiles<'_>,
    path: &str,
    bytes: &[u8],
) -> Result<bool, Failed> {
    let mut out = files.create(alloc, path)?;
    let is_written = write_all(&mut out, bytes).is_ok();
    files.take_back(path, out);
    Ok(is_written)
}

/// Whether a file is made twice, and holds what it was made with last.
fn holds_the_last(alloc: Global, files: &mut RealFiles<'_>, path: &'static str) -> bool {
    write_file(alloc, files, path, b"first one") == Ok(true)
        && write_file(alloc, files, path, b"last") == Ok(true)
        && is_read(alloc, files, &(path, 9, Ok(b"last")))
}

#[test]
fn files_are_made_by_their_paths(rt: HostRuntime) {
    let mut files = RealFiles::new(&rt);
    let path = "made_files_test.tmp";
    assert!(rt; holds_the_last(rt.alloc(), &mut files, path));
    assert!(rt; std::fs::remove_file(&rt, path).is_ok());
    assert!(rt; write_file(rt.alloc(), &mut files, "/no/such/file", b"") == Err(Failed));
    assert!(rt; files.faults() == 1);
    assert!(rt; write_file(rt.alloc(), &mut files, "/dev/full", b"lost") == Ok(false));
    assert!(rt; files.sink_faults() == 1);
}
