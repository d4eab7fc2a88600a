//! The queue of job numbers, on one thread.

ghost use Rattle.std.specs.Prelude.{◌≡◌};

use std::alloc::{AllocError, Global};
use std::test::Fail;
use std::thread::Threads;
use ua_jobs::{Job, JobQueue, ServeEnd, Served, serve};
use ua_table::FreeGate;

/// A job that is answered by itself.
#[derive(Drop)]
struct Same {
    number: u32,
}

impl Job for Same {
    ghost use Rattle.std.specs.Prelude.{◌≡◌};

    type Out = u32;

    ghost permits = { λ job out. out ≡ job.number };

    fn work<R: Threads + Sync>(&self, _rt: &R, _alloc: Global) -> Result<u32, AllocError> {
        Ok(self.number)
    }
}

/// What one thread hands to another.
fn handed<T: Send>(x: T) -> T
    ensures { result ≡ x }
{
    x
}

/// What threads share.
fn shared<T: Sync>(_: &T) {}

#[test]
fn a_lone_pass(rt: HostRuntime) -> Result<(), Fail> {
    let alloc = rt.alloc();
    let jobs = [Same { number: 5 }, Same { number: 7 }, Same { number: 9 }];
    let (queue, mut pass) = JobQueue::start(alloc, 3)?;
    assert_eq!(rt; queue.push(&rt, &mut pass, 0), Ok(()));
    assert_eq!(rt; queue.push(&rt, &mut pass, 2), Ok(()));
    let Served {
        pass: _,
        answers,
        end,
    } = serve(&rt, alloc, &queue, pass, &jobs, 0, &FreeGate);
    assert_eq!(rt; end, ServeEnd::Empty);
    assert_eq!(rt; answers.as_slice(), [(0, 5), (2, 9)].as_slice());
    Ok(())
}

#[test]
fn passes_split_and_joined(rt: HostRuntime) -> Result<(), Fail> {
    let (queue, mut first) = JobQueue::start(rt.alloc(), 2)?;
    shared(&queue);
    let mut second = handed(queue.split(&mut first));
    assert_eq!(rt; queue.pop(&rt, &mut second), None);
    assert_eq!(rt; queue.push(&rt, &mut first, 0), Ok(()));
    assert_eq!(rt; queue.push(&rt, &mut first, 1), Ok(()));
    assert_eq!(rt; queue.pop(&rt, &mut second), Some(0));
    queue.join(&mut first, second);
    assert_eq!(rt; queue.pop(&rt, &mut first), Some(1));
    assert_eq!(rt; queue.pop(&rt, &mut first), None);
    Ok(())
}
