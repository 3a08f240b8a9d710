//! Scripts, printed, and texts that are none where no `rest` line may be.

use script_text::{Script, ScriptKind, print_script, read_script};
use std::alloc::{AllocError, Global};
use std::test::Fail;
use workload::generate;

/// The print of a workload of two frames from seed 1.
const TWO_FRAMES: &[u8] =
    b"open\nopen\ndata 0 0000001e80010001000000036164640000000008000100006c5708000200006fac00\ndata 1 00000036800100010000000963616c63756c61746500000001080001000000010c000208000100008268080002000086b3080003000000020000\nend 0\nend 1\n";

/// Scripts for 2 workers, with their prints.
const PRINTS: [(&[u8], &[u8]); 6] = [
    (b"", b""),
    (b"\n# nothing\n", b""),
    (b"open\nend 0", b"open\nend 0\n"),
    (
        b"open\ndata 0 00fF\nwritefail 0\nreadfail 0\nblock 0\n",
        b"open\nwritefail 0\nblock 0\ndata 0 00ff\nreadfail 0\n",
    ),
    (
        b"open\nopen\nwrite 1 4294967295\nrest\nwrite 0 1\nend 1\nloop 1\nwork 1\ncollect\nend 0\nwrite 0 2\n",
        b"open\nwrite 0 1\nwrite 0 2\nopen\nwrite 1 4294967295\nrest\nend 1\nloop 1\nwork 1\ncollect\nend 0\n",
    ),
    (
        b"#\nopen\ndata 0 41\ndata 0 4243\nend 0\n\nopen\nend 1\n",
        b"open\ndata 0 41\ndata 0 4243\nend 0\nopen\nend 1\n",
    ),
];

/// Texts that are no script where no `rest` line may be, with the line of the first fault and its kind.
const REFUSED: [(&[u8], u32, ScriptKind); 4] = [
    (b"# rest\nopen\n\nrest\nrest\nend 0\n", 4, ScriptKind::Rest),
    (b"rest\nopen\n", 1, ScriptKind::Rest),
    (b"rest \nopen\nend 0\n", 1, ScriptKind::BadLine),
    (b"open\nend 1\nrest\nend 0\n", 2, ScriptKind::NoConnection),
];

/// Whether a script has this print.
fn has_print(alloc: Global, script: &Script, print: &[u8]) -> Result<bool, AllocError> {
    let printed = print_script(alloc, script)?;
    Ok(printed.as_slice() == print)
}

/// Whether a text is a script with this print.
fn prints(alloc: Global, text: &[u8], print: &[u8]) -> Result<bool, AllocError> {
    match read_script(alloc, text, 2, true, true) {
        Ok(script) => has_print(alloc, &script, print),
        Err(_) => Ok(false),
    }
}

/// Whether a text is one, and its print is printed to itself.
fn prints_again(alloc: Global, text: &[u8], print: &[u8]) -> Result<bool, AllocError> {
    Ok(prints(alloc, text, print)? && prints(alloc, print, print)?)
}

#[test]
fn scripts_are_printed(rt: HostRuntime) -> Result<(), Fail> {
    for (text, print) in &PRINTS {
        assert!(rt; prints_again(rt.alloc(), text, print)?, "{text:?}");
    }
    Ok(())
}

/// Whether a text that may have no `rest` line has its first fault there, of this kind.
fn is_refused(alloc: Global, text: &[u8], line: u32, kind: ScriptKind) -> bool {
    match read_script(alloc, text, 2, true, false) {
        Ok(_) => false,
        Err(fault) => fault.line == line && fault.kind == kind,
    }
}

#[test]
fn rest_lines_are_refused(rt: HostRuntime) -> Result<(), Fail> {
    for (text, line, kind) in &REFUSED {
        assert!(rt; is_refused(rt.alloc(), text, *line, *kind), "{text:?}");
    }
    Ok(())
}

fn is_a_workload_printed(alloc: Global) -> Result<bool, AllocError> {
    let script = generate(alloc, 1, 2)?;
    has_print(alloc, &script, TWO_FRAMES)
}

#[test]
fn a_workload_is_printed(rt: HostRuntime) -> Result<(), Fail> {
    assert!(rt; is_a_workload_printed(rt.alloc())?);
    Ok(())
}
