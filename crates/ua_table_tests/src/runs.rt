//! Runs and gates.

use crate::asked::Call;
use std::sync::atomic::{AtomicU64, Ordering};
use std::test::Fail;
use ua_cases::{expect, number, put_flag};
use ua_table::{Algebra, Frame, FreeGate, Gate, Run, Shape, Vectors};

/// A gate that counts how often it was passed.
#[derive(Drop)]
struct Counter(AtomicU64);

impl Gate for Counter {
    fn before(&self, _worker: u32, _slice: u64) {
        self.0.fetch_add(1, Ordering::SeqCst);
    }

    fn after(&self, _worker: u32, _slice: u64) {
        self.0.fetch_add(1, Ordering::SeqCst);
    }
}

/// Passes the gate as each worker would at one slice.
fn pass<G: Gate>(gate: &G, workers: u32) {
    for worker in 0..workers {
        gate.before(worker, 0);
        gate.after(worker, 0);
    }
}

/// Whether there is a run with this budget and so many workers.
pub(crate) fn put_run(asked: &str, text: &mut String) -> Result<(), Fail> {
    let run = Run::new(number(asked, 0)?, number(asked, 1)?, &FreeGate);
    put_flag(text, run.is_some())
}

#[test]
fn limits(rt: HostRuntime) -> Result<(), Fail> {
    let cases = "
        0, 1 => false
        1, 1 => true
        1000000, 16 => true
        1000001, 1 => false
        1, 0 => false
        1, 17 => false";
    expect(rt.alloc(), &Call::Run, cases)
}

#[test]
fn gates(rt: HostRuntime) {
    let counter = Counter(AtomicU64::new(0));
    pass(&counter, 3);
    pass(&FreeGate, 3);
    assert_eq!(rt; counter.0.load(Ordering::SeqCst), 6);
}

fn shared<T: Sync>() {}

fn handed_over<T: Send>() {}

/// What workers share, and what they hand over.
#[test]
fn types_that_threads_share() {
    shared::<Algebra>();
    shared::<Frame>();
    shared::<Shape>();
    shared::<Vectors>();
    shared::<Run<FreeGate>>();
    handed_over::<Algebra>();
    handed_over::<Frame>();
    handed_over::<Shape>();
    handed_over::<Vectors>();
}
