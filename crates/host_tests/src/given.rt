//! What the tests share: the command, run over files and streams in memory.

ghost use Rattle.std.specs.Prelude.{◌≡◌, IfOk};
ghost use Rattle.script_links.specs.Failing.{none_fails};

use calculator::Calculator;
use call_rules::Handler;
use house_handlers::{Mirror, Store};
use outside::{Binder, EmptyGate, Gate};
use script_links::MemBinder;
use script_text::read_script;
use std::alloc::{AllocError, Global};
use std::sync::Wait;
use std::thread::Threads;
use streams::{Files, MemFiles, MemSink, MemSource, Sink, Source};
use thrift_host::{Status, host};

/// The name of a journal's file.
pub(crate) const JOURNAL: &str = "calls.txt";

/// The words of a port that two workers serve.
pub(crate) const SERVE: [&str; 11] = [
    "serve",
    "@tutorial",
    "binary",
    "2",
    "Calculator=calculator",
    "--listen",
    "9090",
    "--accept",
    "10",
    "--journal",
    JOURNAL,
];

/// `ping` twice on one connection.
pub(crate) const TWO_PINGS: &[u8] =
    b"open\ndata 0 00000011800100010000000470696e670000000000\ndata 0 00000011800100010000000470696e670000000000\nend 0\n";

/// What a command came to.
#[derive(Drop)]
pub(crate) struct Ended {
    pub(crate) status: Status,
    pub(crate) output: Vec<u8>,
    pub(crate) errors: Vec<u8>,
    /// What the journal's file holds, where there is one.
    pub(crate) journal: Vec<u8>,
}

impl Ended {
    /// Whether it ended with this status, this output and this line of errors.
    pub(crate) fn is_so(&self, status: Status, output: &[u8], errors: &[u8]) -> bool {
        self.status == status
            && self.output.as_slice() == output
            && self.errors.as_slice() == errors
    }

    /// Whether it was done, and what it wrote ends so.
    pub(crate) fn is_done_with(&self, end: &[u8]) -> bool {
        self.status == Status::Done && self.output.as_slice().ends_with(end)
    }
}

/// A file's name and what it holds.
pub(crate) type Held<'a> = (&'a str, &'a [u8]);

/// The kinds of calls of which one may fail.
#[derive(Clone, Copy, PartialEq, Eq)]
pub(crate) enum Called {
    /// It reads a file, or makes one.
    File,
    /// It writes the journal.
    Journal,
    /// It reads the input.
    Input,
    /// It writes the output.
    Output,
    /// It writes a line of errors.
    Errors,
    /// It listens at a port, or dials one.
    Listen,
    /// It asks the links of the port what is next.
    Next,
    /// It reads connection 0.
    Read,
    /// It writes on connection 0.
    Write,
    /// It writes on a pipe that was dialled, or reads it.
    Pipe,
}

/// What a command is given, as plain data: files, an input, a script of what comes to a port, and what a port answers.
#[derive(Clone, Copy)]
pub(crate) struct Given<'a> {
    pub(crate) files: &'a [Held<'a>],
    pub(crate) input: &'a [u8],
    pub(crate) port: &'a [u8],
    /// What a port answers that is dialled.
    pub(crate) reply: &'a [u8],
    /// How many bytes a read of the input gives, and a write of the output takes.
    pub(crate) piece: usize,
    /// Which call fails, by its number among those of its kind, from 0.
    pub(crate) failing: Option<(Called, u64)>,
}

impl<'a> Given<'a> {
    /// No file and an empty input, with streams that give and take all at once; nothing fails.
    pub(crate) fn empty() -> Given<'a> {
        Given {
            files: &[],
            input: b"",
            port: b"",
            reply: b"",
            piece: usize::MAX,
            failing: None,
        }
    }

    /// Runs the command of these words, with a calculator, a store and a mirror, behind a gate that lets everyone pass.
    pub(crate) fn run<R: Threads + Wait + Sync>(
        self,
        rt: &R,
        alloc: Global,
        words: &[&str],
    ) -> Result<Ended, AllocError> {
        self.run_behind(rt, alloc, words, &EmptyGate)
    }

    /// Does the same behind a gate.
    pub(crate) fn run_behind<G: Gate + Sync, R: Threads + Wait + Sync>(
        self,
        rt: &R,
        alloc: Global,
        words: &[&str],
        gate: &G,
    ) -> Result<Ended, AllocError> {
        let words = owned(alloc, words)?;
        let handlers = house_handlers_of(alloc)?;
        self.run_with(rt, alloc, words.as_slice(), gate, handlers)
    }

    fn run_with<G: Gate + Sync, H: Handler, R: Threads + Wait + Sync>(
        self,
        rt: &R,
        alloc: Global,
        words: &[String],
        gate: &G,
        handlers: Vec<H>,
    ) -> Result<Ended, AllocError> {
        let streams = self.streams_of(alloc)?;
        Ok(streams.ended_by(rt, alloc, words, gate, handlers))
    }

    /// The calls of this kind that fail. Without memory none does, and a test that one fails doesn't pass.
    fn fails_of(self, alloc: Global, kind: Called) -> Vec<u64> {
        let mut fails = Vec::new(alloc);
        if let Some((failing, call)) = self.failing {
            if failing == kind {
                let _ = fails.push(call);
            }
        }
        fails
    }

    fn files_of(self, alloc: Global) -> Result<MemFiles, AllocError> {
        let files = held_files(alloc, self.files)?;
        let files = MemFiles::new(files, self.fails_of(alloc, Called::File));
        Ok(files.with_sink_fails(self.fails_of(alloc, Called::Journal)))
    }

    fn input_of(self, alloc: Global) -> Result<MemSource, AllocError> {
        let input = self.input.to_vec(alloc)?;
        let fails = self.fails_of(alloc, Called::Input);
        Ok(MemSource::in_pieces(input, fails, self.piece.max(1)))
    }

    fn output_of(self, alloc: Global) -> MemSink {
        let fails = self.fails_of(alloc, Called::Output);
        MemSink::in_pieces(alloc, fails, self.piece.max(1))
    }

    fn errors_of(self, alloc: Global) -> MemSink {
        MemSink::new(alloc, self.fails_of(alloc, Called::Errors))
    }

    /// Links over a script, in place of a port.
    fn links_of(self, alloc: Global) -> Result<MemBinder, AllocError>
        ensures { IfOk result (λ binder. binder.plan ≡ none_fails) }
    {
        match read_script(alloc, self.port, 0, false, true) {
            Ok(script) => Ok(MemBinder::new(script, self.fails_of(alloc, Called::Listen))),
            Err(_) => Err(AllocError),
        }
    }

    /// The same, on which the calls fail that are to, and what a port answers.
    fn binder_of(self, alloc: Global) -> Result<MemBinder, AllocError> {
        let reply = self.reply.to_vec(alloc)?;
        let links = self.links_of(alloc)?;
        let binder = links.with_pipe(reply, self.fails_of(alloc, Called::Pipe));
        let binder = binder.with_net_fails(self.fails_of(alloc, Called::Next));
        let reads = self.fails_of(alloc, Called::Read);
        let writes = self.fails_of(alloc, Called::Write);
        Ok(binder.with_link_fails(0, reads, writes))
    }

    fn streams_of(self, alloc: Global) -> Result<Streams, AllocError> {
        let files = self.files_of(alloc)?;
        let input = self.input_of(alloc)?;
        let binder = self.binder_of(alloc)?;
        Ok(Streams {
            files,
            input,
            output: self.output_of(alloc),
            errors: self.errors_of(alloc),
            binder,
        })
    }
}

/// What a command runs over.
#[derive(Drop)]
struct Streams {
    files: MemFiles,
    input: MemSource,
    output: MemSink,
    errors: MemSink,
    binder: MemBinder,
}

impl Streams {
    /// Runs the command of these words, and takes what it wrote.
    fn ended_by<G: Gate + Sync, H: Handler, R: Threads + Wait + Sync>(
        self,
        rt: &R,
        alloc: Global,
        words: &[String],
        gate: &G,
        handlers: Vec<H>,
    ) -> Ended {
        let mut streams = self;
        let status = streams.status_of(rt, alloc, words, gate, handlers);
        streams.ended(alloc, status)
    }

    fn status_of<G: Gate + Sync, H: Handler, R: Threads + Wait + Sync>(
        &mut self,
        rt: &R,
        alloc: Global,
        words: &[String],
        gate: &G,
        handlers: Vec<H>,
    ) -> Status {
        status_of(
            rt,
            alloc,
            words,
            &mut self.files,
            &mut self.input,
            &mut self.output,
            &mut self.errors,
            &mut self.binder,
            gate,
            handlers,
        )
    }

    /// What was written, with the status that the command came to.
    fn ended(self, alloc: Global, status: Status) -> Ended {
        let Streams {
            mut files,
            output,
            errors,
            ..
        } = self;
        Ended {
            status,
            output: output.into_bytes(),
            errors: errors.into_bytes(),
            journal: journal_in(alloc, &mut files),
        }
    }
}

/// What the journal's file holds, which is nothing where there is none.
fn journal_in(alloc: Global, files: &mut MemFiles) -> Vec<u8> {
    match files.read_whole(alloc, JOURNAL, 1_000_000) {
        Ok(journal) => journal,
        Err(_) => Vec::new(alloc),
    }
}

/// Calls `host`. What its contract says isn't handed on: the tests look at what was written.
fn status_of<
    F: Files,
    S: Source,
    K: Sink,
    E: Sink,
    B: Binder,
    G: Gate + Sync,
    H: Handler,
    R: Threads + Wait + Sync,
>(
    rt: &R,
    alloc: Global,
    words: &[String],
    files: &mut F,
    input: &mut S,
    output: &mut K,
    errors: &mut E,
    binder: &mut B,
    gate: &G,
    handlers: Vec<H>,
) -> Status {
    host(
        rt, alloc, words, files, input, output, errors, binder, gate, handlers,
    )
}

/// A calculator, a store and a mirror.
fn house_handlers_of(alloc: Global) -> Result<Vec<Box<dyn Handler>>, AllocError> {
    let mut handlers = Vec::new(alloc);
    let calculator: Box<dyn Handler> = Box::new(alloc, Calculator::new(alloc))?;
    handlers.push(calculator)?;
    add_store(alloc, &mut handlers)?;
    add_mirror(alloc, &mut handlers)?;
    Ok(handlers)
}

fn add_store(alloc: Global, handlers: &mut Vec<Box<dyn Handler>>) -> Result<(), AllocError> {
    let store: Box<dyn Handler> = Box::new(alloc, Store::new(alloc))?;
    handlers.push(store)?;
    Ok(())
}

fn add_mirror(alloc: Global, handlers: &mut Vec<Box<dyn Handler>>) -> Result<(), AllocError> {
    let mirror: Box<dyn Handler> = Box::new(alloc, Mirror::new())?;
    handlers.push(mirror)?;
    Ok(())
}

fn push_word(alloc: Global, words: &mut Vec<String>, word: &str) -> Result<(), AllocError> {
    let word = String::from_str(alloc, word)?;
    words.push(word)?;
    Ok(())
}

fn owned(alloc: Global, words: &[&str]) -> Result<Vec<String>, AllocError> {
    let mut all = Vec::new(alloc);
    for word in words {
        push_word(alloc, &mut all, word)?;
    }
    Ok(all)
}

/// Adds a file.
fn hold(
    alloc: Global,
    files: &mut Vec<(String, Vec<u8>)>,
    name: &str,
    text: &[u8],
) -> Result<(), AllocError> {
    let name = String::from_str(alloc, name)?;
    let text = text.to_vec(alloc)?;
    files.push((name, text))?;
    Ok(())
}

fn held_files(alloc: Global, held: &[Held]) -> Result<Vec<(String, Vec<u8>)>, AllocError> {
    let mut files = Vec::new(alloc);
    for (name, text) in held {
        hold(alloc, &mut files, name, text)?;
    }
    Ok(files)
}
