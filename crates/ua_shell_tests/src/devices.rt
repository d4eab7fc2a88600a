//! Devices that fail at each of their calls in turn, and that give or take one byte at a call.

use crate::runs::{told, told_by};
use std::alloc::Global;
use std::process::Abort;
use std::sync::Wait;
use std::test::Fail;
use std::thread::Threads;
use ua_cases::same;
use ua_table::FreeGate;

/// Three blocks, and a command for each kind of reply: rows, steps, a value, partitions, a certificate, an error.
const SCRIPT: &str = "algebra M size 2 op meet 2 = 0 0 0 1 end
algebra Z2 size 2 op plus 2 = 0 1 1 0 end
algebra L size 2 op meet 2 = 0 0 0 1 op join 2 = 0 1 1 1 end
close M 2 [0 1] [1 0]
member Z2 2 [0 1] = [0 0]
eval L join(x0, x1) [0 1]
con L
cert member M 1 [0] = [1]
sub M [2]
";

/// What is told of the script with one byte at a call, where the call of this number of the source, and that of the
/// sink, fails.
fn slowly<R: Threads + Wait + Sync>(
    rt: &R,
    alloc: Global,
    source_fails: &[u32],
    sink_fails: &[u32],
) -> Result<String, Fail> {
    let (words, script) = ("--workers 1", SCRIPT.as_bytes());
    told_by(
        rt,
        alloc,
        words,
        script,
        1,
        source_fails,
        sink_fails,
        &FreeGate,
    )
}

/// What is told of the script where nothing fails.
fn undisturbed<R: Threads + Wait + Sync>(rt: &R, alloc: Global) -> Result<String, Fail> {
    told(rt, alloc, "--workers 1", SCRIPT.as_bytes(), &[], &[])
}

#[test]
fn one_byte_at_a_call(rt: HostRuntime) -> Result<(), Fail> {
    let whole = undisturbed(&rt, rt.alloc())?;
    let found = slowly(&rt, rt.alloc(), &[], &[])?;
    assert!(rt; whole.starts_with("Done: ") && whole.len() > 206);
    same("one byte at a call", found.as_str(), whole.as_str())
}

/// Fails at this read.
fn read_fails<R: Threads + Wait + Abort + Sync>(
    rt: &R,
    alloc: Global,
    call: u32,
) -> Result<(), Fail> {
    let found = slowly(rt, alloc, &[call], &[])?;
    assert_eq!(rt; found.as_str(), "ReadFault: ", "{call}");
    Ok(())
}

/// Where any read fails, the last of which finds the end, nothing is written.
#[test]
fn reads_fail_in_turn(rt: HostRuntime) -> Result<(), Fail> {
    for call in 0..=SCRIPT.len() as u32 {
        read_fails(&rt, rt.alloc(), call)?;
    }
    Ok(())
}

/// Fails at this write, with what stands before it written.
fn write_fails<R: Threads + Wait + Sync>(
    rt: &R,
    alloc: Global,
    whole: &str,
    call: u32,
) -> Result<(), Fail> {
    let found = slowly(rt, alloc, &[], &[call])?;
    let before = whole.get(..call as usize).ok_or("too short")?;
    let wanted = format!(in alloc; "WriteFault: {before}")?;
    same("a failed write", found.as_str(), wanted.as_str())
}

/// Fails at each write of the whole.
fn writes_fail<R: Threads + Wait + Abort + Sync>(
    rt: &R,
    alloc: Global,
    whole: &str,
) -> Result<(), Fail> {
    assert!(rt; whole.len() < 1_000);
    for call in 0..whole.len() as u32 {
        write_fails(rt, alloc, whole, call)?;
    }
    Ok(())
}

/// Where any write fails, what stands before it is written.
#[test]
fn writes_fail_in_turn(rt: HostRuntime) -> Result<(), Fail> {
    let told = undisturbed(&rt, rt.alloc())?;
    let (_, whole) = told.split_once(": ").ok_or("nothing is written")?;
    writes_fail(&rt, rt.alloc(), whole)
}
