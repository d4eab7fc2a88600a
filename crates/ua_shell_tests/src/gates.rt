//! A gate at which two threads meet.

use std::sync::atomic::{AtomicBool, AtomicU32, Ordering};
use std::thread;
use ua_table::Gate;

/// Whoever begins slice 0, or the other slice, first waits until a second does.
#[derive(Drop)]
pub struct Meeting {
    other: u64,
    begun: AtomicU32,
    met: AtomicBool,
}

impl Meeting {
    /// A gate for those who begin slice 0 or this one.
    pub fn new(other: u64) -> Meeting {
        Meeting {
            other,
            begun: AtomicU32::new(0),
            met: AtomicBool::new(false),
        }
    }

    /// Whether two have met.
    pub fn met(&self) -> bool {
        self.met.load(Ordering::SeqCst)
    }

    /// Whether a second one begins within ten million looks, after each of which another thread may go on.
    fn waits(&self) -> bool {
        for _ in 0..10_000_000 {
            if self.begun.load(Ordering::SeqCst) >= 2 {
                return true;
            }
            thread::yield_now();
        }
        false
    }
}

impl Gate for Meeting {
    fn before(&self, _worker: u32, slice: u64) {
        let is_awaited = slice == 0 || slice == self.other;
        if is_awaited && self.begun.fetch_add(1, Ordering::SeqCst) == 0 {
            self.met.store(self.waits(), Ordering::SeqCst);
        }
    }

    fn after(&self, _worker: u32, _slice: u64) {}
}
