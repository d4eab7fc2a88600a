//! Batches of small jobs.

ghost use Rattle.std.specs.Prelude.{◌≡◌, ◌≤◌, ◌+◌, length, IfOk};

use std::alloc::{AllocError, Global};
use std::process::Abort;
use std::sync::Wait;
use std::sync::atomic::{AtomicBool, Ordering};
use std::test::Fail;
use std::thread::{self, Threads};
use ua_jobs::{JOBS, Job, batch, batch_with};
use ua_table::{FreeGate, Gate};

/// A job that is answered by its number's successor.
#[derive(Drop)]
struct Next {
    number: u32,
}

impl Job for Next {
    ghost use Rattle.std.specs.Prelude.{◌≡◌, ◌+◌};

    type Out = u64;

    ghost permits = { λ job out. out ≡ job.number + 1 };

    fn work<R: Threads + Sync>(&self, _rt: &R, _alloc: Global) -> Result<u64, AllocError> {
        Ok(u64::from(self.number) + 1)
    }
}

/// A job for which memory never suffices.
#[derive(Drop)]
struct Large;

impl Job for Large {
    ghost use Rattle.std.specs.Prelude.{◌≡◌};

    type Out = u64;

    ghost permits = { λ job out. out ≡ 0 };

    fn work<R: Threads + Sync>(&self, _rt: &R, _alloc: Global) -> Result<u64, AllocError> {
        Err(AllocError)
    }
}

/// The jobs with so many numbers from 0 on.
fn jobs_from(alloc: Global, count: u32) -> Result<Vec<Next>, AllocError>
    requires { count ≤ 64 }
    ensures { IfOk result (λ jobs. length jobs.items ≡ count) }
{
    let mut jobs = Vec::new(alloc);
    for number in 0..count {
        jobs.push(Next { number })?;
    }
    Ok(jobs)
}

/// Compares the answers of a batch of so many jobs, and those of as many calls of a closure.
fn check<R: Threads + Wait + Abort + Sync>(
    rt: &R,
    alloc: Global,
    count: u32,
    pool: u32,
) -> Result<(), Fail>
    requires few { count ≤ 64 }
    requires some { 1 ≤ pool }
    requires pool { pool ≤ 16 }
{
    let jobs = jobs_from(alloc, count)?;
    let answers = batch(rt, alloc, &jobs, pool, &FreeGate)?;
    let mut wanted = Vec::new(alloc);
    for number in 0..count {
        wanted.push(u64::from(number) + 1)?;
    }
    assert_eq!(rt; answers.as_slice(), wanted.as_slice());
    let same = batch_with(
        rt,
        alloc,
        count,
        pool,
        &FreeGate,
        &|number: u32| { Ok(u64::wrapping_add(u64::from(number), 1)) },
    )?;
    assert_eq!(rt; same.as_slice(), wanted.as_slice());
    Ok(())
}

#[test]
fn batches_of_many_sizes(rt: HostRuntime) -> Result<(), Fail> {
    let alloc = rt.alloc();
    for count in [0, 1, 2, 64] {
        for pool in [1, 2, 16] {
            check(&rt, alloc, count, pool)?;
        }
    }
    assert_eq!(rt; JOBS, 64);
    Ok(())
}

#[test]
fn memory_runs_out(rt: HostRuntime) -> Result<(), Fail> {
    let jobs = [Large, Large];
    let answers = batch(&rt, rt.alloc(), &jobs, 2, &FreeGate);
    assert!(rt; answers.is_err());
    Ok(())
}

/// A gate at which whoever begins job 0 waits until job 1 is begun.
#[derive(Drop)]
struct Meeting {
    begun: AtomicBool,
    met: AtomicBool,
}

impl Meeting {
    fn new() -> Meeting {
        Meeting {
            begun: AtomicBool::new(false),
            met: AtomicBool::new(false),
        }
    }

    /// Whether job 1 was begun within ten million looks, behind each of which another thread
    /// may go on.
    fn waits(&self) -> bool {
        for _ in 0..10_000_000 {
            if self.begun.load(Ordering::SeqCst) {
                return true;
            }
            thread::yield_now();
        }
        false
    }
}

impl Gate for Meeting {
    fn before(&self, _worker: u32, number: u64) {
        match number {
            0 => self.met.store(self.waits(), Ordering::SeqCst),
            1 => self.begun.store(true, Ordering::SeqCst),
            _ => {}
        }
    }

    fn after(&self, _worker: u32, _number: u64) {}
}

#[test]
fn two_jobs_meet(rt: HostRuntime) -> Result<(), Fail> {
    let jobs = [Next { number: 5 }, Next { number: 7 }];
    let meeting = Meeting::new();
    let answers = batch(&rt, rt.alloc(), &jobs, 2, &meeting)?;
    assert!(rt; meeting.met.load(Ordering::SeqCst));
    assert_eq!(rt; answers.as_slice(), [6, 8].as_slice());
    Ok(())
}
