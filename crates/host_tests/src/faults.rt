//! Commands of which each call on a device fails in turn: reads of files and of the input, writes of the output and of the errors' line, and a port.

use crate::given::{Called, Ended, Given, Held, SERVE, TWO_PINGS};
use std::alloc::{AllocError, Global};
use std::process::Abort;
use std::sync::Wait;
use std::test::Fail;
use std::thread::Threads;
use thrift_host::Status;

/// A command, and the devices of which a call fails.
struct Command {
    words: &'static [&'static str],
    files: &'static [Held<'static>],
    input: &'static [u8],
    /// How many bytes a read of the input gives, and a write of the output takes.
    piece: usize,
    /// How it ends where no call fails.
    status: Status,
    /// How many calls there are on each of these devices.
    devices: &'static [(Called, u64)],
}

/// The words of a rehearsal.
const REHEARSE: [&str; 5] = [
    "rehearse",
    "@tutorial",
    "binary",
    "0",
    "Calculator=calculator",
];

const NO_FILES: &[Held] = &[];

/// All at once.
const WHOLE: usize = usize::MAX;

const PING: &[u8] = b"open\ndata 0 00000011800100010000000470696e670000000000\nend 0\n";

/// A call that is answered with an exception.
const DIVISION: &[u8] =
    b"open\ndata 0 00000036800100010000000963616c63756c61746500000001080001000000010c00020800010000000108000200000000080003000000040000\nend 0\n";

/// What the tutorial's client sends: `ping`, `add`, `calculate` with a division by 0 and then a subtraction, and `getStruct`.
const SESSION: &[u8] = b"open\ndata 0 00000011800100010000000470696e670000000000\
0000001e800100010000000361646400000001080001000000010800020000000100\
00000036800100010000000963616c63756c617465000000010800010000000\
10c0002080001000000010800020000000008000300000004\
0000\
00000036800100010000000963616c63756c617465000000040800010000000\
10c00020800010000000f0800020000000a08000300000002\
0000\
0000001d8001000100000009676574537472756374000000020800010000000100\nend 0\n";

/// A file that includes another, with it.
const TWO_FILES: &[Held] = &[
    ("a.thrift", b"include \"b.thrift\"\nstruct S { 1: b.T t }"),
    (
        "b.thrift",
        b"struct T { optional string s = \"x\" }\nservice V { T f(1: i8 a) }",
    ),
];

/// An IDL, and one that comes after it, without its struct.
const LATER: &[Held] = &[("a.thrift", b"struct S { 1: i32 a }"), ("b.thrift", b"")];

/// A struct with four defaults, and a service that takes a list of it.
const DEFAULTS: &[Held] = &[(
    "b.thrift",
    b"struct D { 1: i32 a = 1 2: i32 b = 1 3: i32 c = 1 4: i32 d = 1 } service B { void f(1: list<D> x) }",
)];

/// A session has one read for each piece, and one that finds the end. No file is read of the tutorial; an absent file is absent also where its read is to fail.
const COMMANDS: [Command; 17] = [
    Command {
        words: &REHEARSE,
        files: NO_FILES,
        input: PING,
        piece: 1,
        status: Status::Done,
        devices: &[(Called::Input, 62), (Called::Output, 168)],
    },
    Command {
        words: &REHEARSE,
        files: NO_FILES,
        input: SESSION,
        piece: 7,
        status: Status::Done,
        devices: &[(Called::Input, 62), (Called::Output, 129)],
    },
    Command {
        words: &REHEARSE,
        files: NO_FILES,
        input: DIVISION,
        piece: 100,
        status: Status::Done,
        devices: &[(Called::Output, 4)],
    },
    Command {
        words: &REHEARSE,
        files: NO_FILES,
        input: b"open",
        piece: WHOLE,
        status: Status::ScriptRefused,
        devices: &[(Called::Errors, 1)],
    },
    Command {
        words: &["check", "a.thrift"],
        files: TWO_FILES,
        input: b"",
        piece: 10,
        status: Status::Done,
        devices: &[(Called::File, 2), (Called::Output, 12)],
    },
    Command {
        words: &["check", "a.thrift"],
        files: NO_FILES,
        input: b"",
        piece: WHOLE,
        status: Status::IdlRefused,
        devices: &[(Called::File, 0), (Called::Errors, 1)],
    },
    Command {
        words: &["check", "@tutorial"],
        files: NO_FILES,
        input: b"",
        piece: WHOLE,
        status: Status::Done,
        devices: &[(Called::File, 0)],
    },
    Command {
        words: &["check", "b.thrift"],
        files: DEFAULTS,
        input: b"",
        piece: WHOLE,
        status: Status::Done,
        devices: &[(Called::File, 1)],
    },
    Command {
        words: &["compat", "a.thrift", "b.thrift"],
        files: LATER,
        input: b"",
        piece: WHOLE,
        status: Status::Incompatible,
        devices: &[(Called::File, 2), (Called::Output, 1)],
    },
    Command {
        words: &["rehearse", "b.thrift", "binary", "0", "B=mirror"],
        files: DEFAULTS,
        input: b"",
        piece: WHOLE,
        status: Status::Done,
        devices: &[(Called::File, 1)],
    },
    Command {
        words: &["record", "b.thrift", "binary", "2", "B=mirror"],
        files: DEFAULTS,
        input: b"",
        piece: WHOLE,
        status: Status::Done,
        devices: &[(Called::File, 1)],
    },
    Command {
        words: &[
            "serve",
            "b.thrift",
            "binary",
            "0",
            "B=mirror",
            "--listen",
            "9090",
            "--accept",
            "1",
            "--journal",
            "calls.txt",
        ],
        files: DEFAULTS,
        input: b"",
        piece: WHOLE,
        status: Status::Done,
        devices: &[(Called::File, 2)],
    },
    Command {
        words: &SERVE,
        files: NO_FILES,
        input: b"",
        piece: WHOLE,
        status: Status::Done,
        devices: &[(Called::File, 1), (Called::Listen, 1), (Called::Journal, 1)],
    },
    Command {
        words: &[
            "call",
            "@tutorial",
            "binary",
            "Calculator",
            "add",
            "{1=1i,2=1i}",
            "--to",
            "9090",
        ],
        files: NO_FILES,
        input: b"",
        piece: WHOLE,
        status: Status::Done,
        devices: &[(Called::Listen, 1), (Called::Pipe, 3), (Called::Output, 1)],
    },
    Command {
        words: &["rehearse"],
        files: NO_FILES,
        input: b"",
        piece: WHOLE,
        status: Status::Usage,
        devices: &[(Called::Errors, 1)],
    },
    Command {
        words: &["rehearse", "@tutorial", "binary", "0", "Calculator=store"],
        files: NO_FILES,
        input: b"",
        piece: WHOLE,
        status: Status::BindRefused,
        devices: &[(Called::Errors, 1)],
    },
    Command {
        words: &["record", "@tutorial", "binary", "2", "Nobody=mirror"],
        files: NO_FILES,
        input: b"",
        piece: WHOLE,
        status: Status::BindRefused,
        devices: &[(Called::Errors, 1)],
    },
];

/// The reply to a call that adds 1 and 1.
const TWO: &[u8] = b"\0\0\0\x17\x80\x01\0\x02\0\0\0\x03add\0\0\0\x01\x08\0\0\0\0\0\x02\0";

impl Command {
    /// What it is given: two calls come to a port where it serves one, and a port that it calls answers with a 2.
    fn given(&self) -> Given<'static> {
        Given {
            files: self.files,
            input: self.input,
            port: TWO_PINGS,
            reply: TWO,
            piece: self.piece,
            failing: None,
        }
    }
}

impl Ended {
    /// Whether it ended as a call on this device, with this number, failed, of what would have been this: the output has what was written before, and
    /// the journal nothing. A status is the same where the line that says so isn't written.
    fn is_broken(&self, whole: &Ended, device: Called, number: u64, piece: usize) -> bool {
        let (status, written, line): (Status, usize, &[u8]) = match device {
            Called::File => (Status::FileFault, 0, b"thriftd: file fault\n"),
            Called::Input => (Status::ReadFault, 0, b"thriftd: read fault\n"),
            Called::Output => (
                Status::WriteFault,
                piece.saturating_mul(number as usize),
                b"thriftd: write fault\n",
            ),
            Called::Errors => (whole.status, 0, b""),
            Called::Journal => (
                Status::JournalFault,
                usize::MAX,
                b"thriftd: journal fault\n",
            ),
            _ => (Status::NetFault, 0, b"thriftd: net fault\n"),
        };
        let text = whole.output.as_slice();
        let (front, _) = text.split_at(written.min(text.len()));
        self.is_so(status, front, line) && self.journal.is_empty()
    }

    /// Whether two ended alike, whatever stands in their journals.
    fn is_as(&self, other: &Ended) -> bool {
        self.is_so(other.status, &other.output, &other.errors)
    }
}

/// Whether a command is broken so where each of these calls on a device fails, and ends as it does else where the one after them is to.
fn breaks_in_turn<R: Threads + Wait + Sync>(
    rt: &R,
    alloc: Global,
    command: &Command,
    whole: &Ended,
    device: Called,
    calls: u64,
) -> Result<bool, AllocError> {
    for number in 0..=calls {
        let given = Given {
            failing: Some((device, number)),
            ..command.given()
        };
        let ended = given.run(rt, alloc, command.words)?;
        let is_told = if number < calls {
            ended.is_broken(whole, device, number, command.piece)
        } else {
            ended.is_as(whole)
        };
        if !is_told {
            return Ok(false);
        }
    }
    Ok(true)
}

/// Whether that holds of each device of a command that ended so, and it ended as it is to.
fn breaks_as_told<R: Threads + Wait + Sync>(
    rt: &R,
    alloc: Global,
    command: &Command,
    whole: &Ended,
) -> Result<bool, AllocError> {
    for (device, calls) in command.devices {
        if !breaks_in_turn(rt, alloc, command, whole, *device, *calls)? {
            return Ok(false);
        }
    }
    Ok(whole.status == command.status)
}

/// Whether a command ends as it is to, and breaks so on each of its devices.
fn breaks_by_each<R: Threads + Wait + Sync>(
    rt: &R,
    alloc: Global,
    command: &Command,
) -> Result<bool, AllocError> {
    let whole = command.given().run(rt, alloc, command.words)?;
    breaks_as_told(rt, alloc, command, &whole)
}

/// Sees that of each of these commands.
fn each_breaks<R: Abort + Threads + Wait + Sync>(
    rt: &R,
    alloc: Global,
    commands: &[Command],
) -> Result<(), Fail> {
    for command in commands {
        assert!(rt; breaks_by_each(rt, alloc, command)?, "{:?}", command.words);
    }
    Ok(())
}

#[test]
fn each_call_on_a_device_may_fail(rt: HostRuntime) -> Result<(), Fail> {
    each_breaks(&rt, rt.alloc(), &COMMANDS)
}
