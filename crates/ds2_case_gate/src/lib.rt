//! A gate for cases, at which one group waits for another.
//!
//! Whoever holds the one group begins it when the other was handed in, or else after many looks. So a stage gets through at once only where
//! another worker takes part.
//!
//! ```text
//! let gate = WaitingGate::new(3, 5);
//! let end = run_stage(&rt, alloc, &job, 2, &gate)?;
//! let two_took_part = gate.has_waited(2);
//! ```
#![tactic(auto)]

use ds2_outside::Gate;
use std::sync::atomic::{AtomicBool, AtomicU64, Ordering};
use std::thread;

// How often a worker looks whether the other group was handed in.
const MOST_LOOKS: u64 = 10_000_000;

// The worker where none came.
const NOBODY: u64 = u64::MAX;

/// Whoever holds group `held` begins it when group `awaited` was handed in, or else after many looks.
#[derive(Drop)]
pub struct WaitingGate {
    held: u64,
    awaited: u64,
    // Who held the one group, and who the other.
    holder: AtomicU64,
    bringer: AtomicU64,
    has_come: AtomicBool,
    was_late: AtomicBool,
}

impl WaitingGate {
    /// A gate that nobody has come to.
    pub fn new(held: u64, awaited: u64) -> WaitingGate {
        WaitingGate {
            held,
            awaited,
            holder: AtomicU64::new(NOBODY),
            bringer: AtomicU64::new(NOBODY),
            has_come: AtomicBool::new(false),
            was_late: AtomicBool::new(false),
        }
    }

    /// Whether one of so many workers held the one group until another of them, and not their caller, had handed in the other.
    pub fn has_waited(&self, workers: u32) -> bool {
        let holder = self.holder.load(Ordering::SeqCst);
        let bringer = self.bringer.load(Ordering::SeqCst);
        let most = workers as u64;
        holder < most
            && bringer < most
            && holder != bringer
            && self.has_come.load(Ordering::SeqCst)
            && !self.was_late.load(Ordering::SeqCst)
    }

    // Looks until the other group was handed in, or too often.
    fn wait(&self) {
        for _ in 0..MOST_LOOKS {
            if self.has_come.load(Ordering::SeqCst) {
                return;
            }
            thread::yield_now();
        }
        self.was_late.store(true, Ordering::SeqCst);
    }
}

impl Gate for WaitingGate {
    fn before(&self, worker: u32, group: u64) {
        if group == self.held {
            self.holder.store(worker as u64, Ordering::SeqCst);
            self.wait();
        } else if group == self.awaited {
            self.bringer.store(worker as u64, Ordering::SeqCst);
        }
    }

    fn after(&self, _worker: u32, group: u64) {
        if group == self.awaited {
            self.has_come.store(true, Ordering::SeqCst);
        }
    }
}
