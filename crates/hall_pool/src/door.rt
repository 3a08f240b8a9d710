//! The door: where workers wait for jobs, and what tells whether one of them is woken for a job.

use outside::Gate;
use std::hint::spin_loop;
use std::sync::Wait;
use std::sync::atomic::{AtomicU64, Ordering};

/// So often a worker looks for a job that is handed over, before it waits: for a few microseconds, which is less than to sleep and to be woken takes.
const LOOKS: u32 = 100;

/// Where workers wait for jobs. No worker is woken for a job while another one is about to look for one. Nothing is claimed of it.
///
/// No job is left while all workers wait, and none stays behind a call while one waits:
/// - A job is counted in `waiting` before it is submitted, and only then it is looked at whether somebody looks for jobs. A worker that has
///   looked is first taken off `looking`, and then looks at `waiting`. So one of the two sees the other: either the one who hands the job
///   over rings, or the worker that is the last to have looked sees that a job waits. It rings before it makes the call of its own
///   job, or, where it found none, looks once more.
/// - A worker that finds no job is counted in `idle` before it is taken off `looking`. So whoever sees nobody looking sees it in `idle`, or it has
///   been rung for. Where none is in `idle`, each worker is in a call, looks, or has a ring, and looks after that.
/// - A ring is counted in `rings` before the wake. A worker sleeps only while that is 0, which the system looks at again as it puts the worker
///   to sleep; so no ring is slept over. As many rings are made as workers are taken off `idle`, and whichever of them takes one goes on.
/// - At the end one more is counted in `waiting`, which nobody takes: so no worker begins to wait.
#[derive(Drop)]
pub struct Door {
    /// The jobs that are handed over, or about to be, and of which no worker has said that it has taken them.
    waiting: AtomicU64,
    /// The workers that look for a job, and those that are rung for.
    looking: AtomicU64,
    /// The workers that wait, or are about to, and aren't rung for.
    idle: AtomicU64,
    /// The rings that no worker has taken.
    rings: AtomicU64,
}

impl Door {
    /// No job waits, and no worker.
    pub fn new() -> Door {
        Door {
            waiting: AtomicU64::new(0),
            looking: AtomicU64::new(0),
            idle: AtomicU64::new(0),
            rings: AtomicU64::new(0),
        }
    }

    /// A job is about to be handed over.
    pub fn announce(&self) {
        self.waiting.fetch_add(1, Ordering::SeqCst);
    }

    /// Wakes one worker that waits, where there is one, and where nobody looks for a job.
    pub fn ring(&self) {
        if self.looking.load(Ordering::SeqCst) > 0 || !took_one(&self.idle) {
            return;
        }
        self.looking.fetch_add(1, Ordering::SeqCst);
        self.rings.fetch_add(1, Ordering::SeqCst);
        self.rings.wake_one();
    }

    /// From now on no worker waits. Those that do are woken.
    pub(crate) fn close(&self) {
        self.announce();
        let idle = self.idle.swap(0, Ordering::SeqCst);
        self.looking.fetch_add(idle, Ordering::SeqCst);
        self.rings.fetch_add(idle, Ordering::SeqCst);
        self.rings.wake_all();
    }

    /// A worker is about to look for a job.
    pub(crate) fn look(&self) {
        self.looking.fetch_add(1, Ordering::SeqCst);
    }

    /// The worker has taken a job. Where more wait and nobody looks, it rings for them.
    fn leave(&self) {
        self.waiting.fetch_sub(1, Ordering::SeqCst);
        self.looking.fetch_sub(1, Ordering::SeqCst);
        if self.waiting.load(Ordering::SeqCst) > 0 {
            self.ring();
        }
    }

    /// The worker has found no job. It waits until it is rung for, unless a job is handed over; then it is about to look again. Where it has found more than one
    /// job since it waited last, it looks a little for the next before it waits. It answers how many it has found since it waited.
    pub(crate) fn wait<R: Wait>(&self, rt: &R, found: u32) -> u32 {
        if found > 1 && self.comes() {
            return found;
        }
        self.idle.fetch_add(1, Ordering::SeqCst);
        self.looking.fetch_sub(1, Ordering::SeqCst);
        if self.waiting.load(Ordering::SeqCst) > 0 && took_one(&self.idle) {
            self.look();
            return found;
        }
        self.take_ring(rt);
        0
    }

    /// Looks a little while for a job that is handed over, unless another worker does. It answers whether there is one.
    fn comes(&self) -> bool {
        for _ in 0..LOOKS {
            if self.waiting.load(Ordering::SeqCst) > 0 {
                return true;
            }
            if self.looking.load(Ordering::SeqCst) > 1 {
                return false;
            }
            spin_loop();
        }
        false
    }

    /// Takes a ring, and sleeps until there is one.
    fn take_ring<R: Wait>(&self, rt: &R) {
        for _ in rt.forever() {
            if took_one(&self.rings) {
                return;
            }
            self.rings.park(rt, 0);
        }
    }
}

/// Takes one off a count, unless it is 0. It answers whether it did.
fn took_one(count: &AtomicU64) -> bool {
    count
        .fetch_update(
            Ordering::SeqCst,
            Ordering::SeqCst,
            |seen| seen.checked_sub(1),
        )
        .is_ok()
}

/// The gate of a crew's worker. The door is told in front of it that the job was taken, and behind it that the worker looks for the next one.
#[derive(Drop)]
pub(crate) struct DoorGate<'a, G> {
    pub gate: &'a G,
    pub door: &'a Door,
}

impl<'a, G: Gate> Gate for DoorGate<'a, G> {
    fn pass<R: Wait>(&self, rt: &R, c: u32, i: u64) {
        self.door.leave();
        self.gate.pass(rt, c, i);
    }

    fn done<R: Wait>(&self, rt: &R, c: u32, i: u64) {
        self.gate.done(rt, c, i);
        self.door.look();
    }
}
