//! Calls that meet at a gate, and outcomes that are counted there.

use crate::given::{Given, SERVE};
use outside::Gate;
use std::alloc::{AllocError, Global};
use std::process::Abort;
use std::sync::Wait;
use std::sync::atomic::{AtomicU64, Ordering};
use std::test::Fail;
use std::thread::{Threads, yield_now};

/// Counts the jobs that came to it, and those that met the others there. A job waits until so many have come, for 1,000,000 tries at most.
#[derive(Drop)]
struct Meeting {
    wanted: u64,
    came: AtomicU64,
    met: AtomicU64,
}

impl Meeting {
    /// No job has come; so many are to meet.
    fn of(wanted: u64) -> Self {
        Meeting {
            wanted,
            came: AtomicU64::new(0),
            met: AtomicU64::new(0),
        }
    }

    /// Whether as many jobs came as were to meet, and each met the others.
    fn has_met(&self) -> bool {
        self.came.load(Ordering::SeqCst) == self.wanted
            && self.met.load(Ordering::SeqCst) == self.wanted
    }
}

impl Gate for Meeting {
    fn pass<R: Wait>(&self, _rt: &R, _c: u32, _i: u64) {
        self.came.fetch_add(1, Ordering::SeqCst);
        for _ in 0..1_000_000u32 {
            if self.came.load(Ordering::SeqCst) >= self.wanted {
                self.met.fetch_add(1, Ordering::SeqCst);
                break;
            }
            yield_now();
        }
    }

    fn done<R: Wait>(&self, _rt: &R, _c: u32, _i: u64) {}
}

const RECORD: [&str; 5] = [
    "record",
    "@tutorial",
    "binary",
    "2",
    "Calculator=calculator",
];

const RECORD_BY_EIGHT: [&str; 5] = [
    "record",
    "@tutorial",
    "binary",
    "8",
    "Calculator=calculator",
];

/// `ping` on each of two connections.
const PINGS: &[u8] =
    b"open\nopen\ndata 0 00000011800100010000000470696e670000000000\ndata 1 00000011800100010000000470696e670000000000\nend 0\nend 1\n";

/// `ping` on each of eight connections.
const EIGHT_PINGS: &[u8] = b"open\nopen\nopen\nopen\nopen\nopen\nopen\nopen\n\
data 0 00000011800100010000000470696e670000000000\ndata 1 00000011800100010000000470696e670000000000\n\
data 2 00000011800100010000000470696e670000000000\ndata 3 00000011800100010000000470696e670000000000\n\
data 4 00000011800100010000000470696e670000000000\ndata 5 00000011800100010000000470696e670000000000\n\
data 6 00000011800100010000000470696e670000000000\ndata 7 00000011800100010000000470696e670000000000\n\
end 0\nend 1\nend 2\nend 3\nend 4\nend 5\nend 6\nend 7\n";

/// Words, calls that come as a script or to a port, how many they are, and how the report or the summary ends.
type Run = (&'static [&'static str], &'static [u8], u64, &'static [u8]);

/// As many calls come as there are workers.
const RUNS: [Run; 3] = [
    (
        &RECORD,
        PINGS,
        2,
        b"conn 0 End 00000011800100020000000470696e670000000000\nconn 1 End 00000011800100020000000470696e670000000000\ncalls 2\n",
    ),
    (&SERVE, PINGS, 2, b"\nconn 0 End\nconn 1 End\ncalls 2\n"),
    (
        &RECORD_BY_EIGHT,
        EIGHT_PINGS,
        8,
        b"\nconn 7 End 00000011800100020000000470696e670000000000\ncalls 8\n",
    ),
];

/// Whether all calls of a run meet at a gate, and are answered.
fn meet<R: Threads + Wait + Sync>(rt: &R, alloc: Global, run: &Run) -> Result<bool, AllocError> {
    let gate = Meeting::of(run.2);
    let given = Given {
        input: run.1,
        port: run.1,
        ..Given::empty()
    };
    let ended = given.run_behind(rt, alloc, run.0, &gate)?;
    Ok(gate.has_met() && ended.is_done_with(run.3))
}

/// Sees that they do in each of these runs.
fn each_meet<R: Abort + Threads + Wait + Sync>(
    rt: &R,
    alloc: Global,
    runs: &[Run],
) -> Result<(), Fail> {
    for run in runs {
        assert!(rt; meet(rt, alloc, run)?, "{:?}", run.0);
    }
    Ok(())
}

#[test]
fn as_many_calls_are_under_way_at_once_as_there_are_workers(rt: HostRuntime) -> Result<(), Fail> {
    each_meet(&rt, rt.alloc(), &RUNS)
}

/// Counts the outcomes of each frame of the first eight connections, and those of others.
#[derive(Drop)]
struct Counting {
    frames: Vec<AtomicU64>,
    others: AtomicU64,
}

impl Counting {
    /// Has counted no outcomes, of so many frames.
    fn of(alloc: Global, count: usize) -> Result<Counting, AllocError> {
        let mut frames = Vec::new(alloc);
        for _ in 0..count {
            frames.push(AtomicU64::new(0))?;
        }
        Ok(Counting {
            frames,
            others: AtomicU64::new(0),
        })
    }

    /// Whether each frame has had one outcome, and no other one had any.
    fn has_each_once(&self) -> bool {
        for count in self.frames.as_slice() {
            if count.load(Ordering::SeqCst) != 1 {
                return false;
            }
        }
        self.others.load(Ordering::SeqCst) == 0
    }
}

impl Gate for Counting {
    fn pass<R: Wait>(&self, _rt: &R, _c: u32, _i: u64) {}

    fn done<R: Wait>(&self, _rt: &R, c: u32, i: u64) {
        let frame = i.saturating_mul(8).saturating_add(u64::from(c));
        match self.frames.get(frame as usize) {
            Some(count) if c < 8 => {
                count.fetch_add(1, Ordering::SeqCst);
            }
            _ => {
                self.others.fetch_add(1, Ordering::SeqCst);
            }
        }
    }
}

/// Whether each of so many frames of a workload has one outcome.
fn puts_each_once<R: Threads + Wait + Sync>(
    rt: &R,
    alloc: Global,
    words: &[&str],
    frames: usize,
) -> Result<bool, AllocError> {
    let gate = Counting::of(alloc, frames)?;
    let ended = Given::empty().run_behind(rt, alloc, words, &gate)?;
    Ok(ended.is_done_with(b"") && gate.has_each_once())
}

#[test]
fn each_outcome_is_put_once(rt: HostRuntime) -> Result<(), Fail> {
    assert!(rt; puts_each_once(&rt, rt.alloc(), &["workload", "1", "1", "0"], 1)?);
    assert!(rt; puts_each_once(&rt, rt.alloc(), &["workload", "7", "1000", "2"], 1_000)?);
    Ok(())
}
