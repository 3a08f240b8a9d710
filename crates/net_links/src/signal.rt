//! The bell of the links.

use mio::Waker;
use outside::Bell;
use std::alloc::Global;
use std::hint::spin_loop;
use std::io;
use std::sync::atomic::{AtomicBool, Ordering};
use std::sync::{Arc, Wait};

/// So often it is looked for a ring that is owed: for about as long as sending takes. So the replies to calls that end soon after one another are sent at once.
const LOOKS: u32 = 100;

/// What rings of any thread and the loop share.
///
/// A ring leaves its word in `rung` before it looks at `sleeping`, and the loop puts its word into `sleeping` before it looks
/// at `rung`: so one of the two sees the other's, and no ring is lost. Of many rings the first alone makes a system call, or writes
/// at all: a ring that finds `rung` set was made before the loop looks, which then sees whatever the ring tells of.
#[derive(Drop)]
pub(crate) struct Signal {
    waker: Waker,
    /// Whether it was rung since the loop was told so.
    rung: AtomicBool,
    /// Whether the loop waits, or is about to, and nobody has woken it.
    sleeping: AtomicBool,
}

impl Signal {
    /// Nobody has rung, and the loop doesn't wait.
    pub(crate) fn new(waker: Waker) -> Signal {
        Signal {
            waker,
            rung: AtomicBool::new(false),
            sleeping: AtomicBool::new(false),
        }
    }

    /// Rings, and wakes the loop where it waits.
    fn ring(&self) {
        if !self.rung.load(Ordering::SeqCst) {
            self.rung.store(true, Ordering::SeqCst);
        }
        if self.sleeping.load(Ordering::SeqCst) && self.sleeping.swap(false, Ordering::SeqCst) {
            self.wake();
        }
    }

    /// Wakes the loop. Where the system refuses, the next ring tries again.
    fn wake(&self) {
        if self.waker.wake().is_err() {
            self.sleeping.store(true, Ordering::SeqCst);
        }
    }

    /// Whether it was rung since this was asked last.
    pub(crate) fn take(&self) -> bool {
        self.rung.load(Ordering::SeqCst) && self.rung.swap(false, Ordering::SeqCst)
    }

    /// Looks a little while for a ring. It answers whether it was rung.
    pub(crate) fn comes(&self) -> bool {
        for _ in 0..LOOKS {
            if self.rung.load(Ordering::SeqCst) {
                return true;
            }
            spin_loop();
        }
        false
    }

    /// The loop is about to wait. It may, where nobody has rung.
    pub(crate) fn may_sleep(&self) -> bool {
        self.sleeping.store(true, Ordering::SeqCst);
        !self.rung.load(Ordering::SeqCst)
    }

    /// The loop doesn't wait any more.
    pub(crate) fn wake_up(&self) {
        self.sleeping.store(false, Ordering::SeqCst);
    }
}

/// Wakes the loop that waits for these links: a waker of their poll.
#[derive(Drop)]
pub struct NetBell {
    signal: Arc<Signal, Global>,
}

impl NetBell {
    /// A bell that rings this signal.
    pub(crate) fn new(signal: Arc<Signal, Global>) -> NetBell {
        NetBell { signal }
    }
}

impl Bell for NetBell {
    fn ring<R: Wait>(&self, _rt: &R) {
        self.signal.ring();
    }
}
