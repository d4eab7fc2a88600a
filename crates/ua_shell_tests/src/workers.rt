//! Runs with two workers that meet.

use crate::gates::Meeting;
use crate::runs::told_by;
use std::alloc::{AllocError, Global};
use std::process::Abort;
use std::sync::Wait;
use std::test::Fail;
use std::thread::Threads;
use ua_cases::same;

/// The meet semilattice of two elements.
const MEET: &str = "algebra M size 2\nop meet 2 = 0 0 0 1\nend\n";

/// The symmetric group on three letters; the groups of two and of four elements; a lattice, and a Boolean
/// algebra, of two elements.
const GROUPS: &str = "algebra S size 6
op mul 2 = 0 1 2 3 4 5 1 2 0 5 3 4 2 0 1 4 5 3 3 4 5 0 1 2 4 5 3 2 0 1 5 3 4 1 2 0
end
algebra Z2 size 2 op plus 2 = 0 1 1 0 end
algebra Z4 size 4
op plus 2 = 0 1 2 3 1 2 3 0 2 3 0 1 3 0 1 2
end
algebra L size 2
op meet 2 = 0 0 0 1
op join 2 = 0 1 1 1
end
algebra B size 2 op and 2 = 0 0 0 1 op or 2 = 0 1 1 1 op not 1 = 1 0
end
";

/// Compares what is told of a run, or how that begins where a line `..` stands for the rest.
fn compare(matter: &str, found: &str, wanted: &str) -> Result<(), Fail> {
    match wanted.strip_suffix("..\n") {
        Some(front) => same(matter, found.get(..front.len()).unwrap_or(found), front),
        None => same(matter, found, wanted),
    }
}

/// The reply in the case that begins with this line: what stands after its arrow, and the lines up to the next case.
fn reply_at(alloc: Global, cases: &str, line: usize) -> Result<String, AllocError> {
    let mut reply = String::new(alloc);
    for (number, line) in cases.lines().skip(line).enumerate() {
        let part = match line.split_once(" =>") {
            Some((_, first)) if number == 0 => first.trim(),
            Some(_) => break,
            None => line.trim(),
        };
        if !part.is_empty() {
            reply.push_str(part)?;
            reply.push('\n')?;
        }
    }
    Ok(reply)
}

/// Runs a script with two workers, which meet, and compares what it writes.
fn meets<R: Threads + Wait + Abort + Sync>(
    rt: &R,
    alloc: Global,
    script: &str,
    reply: &str,
) -> Result<(), Fail> {
    let meeting = Meeting::new(1);
    let text = script.as_bytes();
    let found = told_by(rt, alloc, "--workers 2", text, 1_000, &[], &[], &meeting)?;
    let wanted = format!(in alloc; "Done: {reply}")?;
    assert!(rt; meeting.met(), "{script}");
    compare(script, found.as_str(), wanted.as_str())
}

/// Runs the case that begins with this line after blocks.
fn meets_at<R: Threads + Wait + Abort + Sync>(
    rt: &R,
    alloc: Global,
    blocks: &str,
    cases: &str,
    line: usize,
    command: &str,
) -> Result<(), Fail> {
    let reply = reply_at(alloc, cases, line)?;
    let script = format!(in alloc; "{blocks}{command}")?;
    meets(rt, alloc, script.as_str(), reply.as_str())
}

/// Runs the cases after blocks, with two workers that meet.
fn all_meet<R: Threads + Wait + Abort + Sync>(
    rt: &R,
    alloc: Global,
    blocks: &str,
    cases: &str,
) -> Result<(), Fail> {
    for (number, line) in cases.lines().enumerate() {
        if let Some((command, _)) = line.split_once(" =>") {
            meets_at(rt, alloc, blocks, cases, number, command.trim())?;
        }
    }
    Ok(())
}

#[test]
fn two_workers_meet(rt: HostRuntime) -> Result<(), Fail> {
    let cases = "
        close M 3 [0 1 1] [1 0 1] [1 1 0] [1 1 1] count => closed 8
        member M 2 [0 1] [1 0] = [1 1] => no 3
            ..
        free M 2 count => closed 3
        condition M 2 (x y) = y (y x) = y => no 3
            ..
        clone M 2 term total [0 1 1 1] => no 3
            ..";
    all_meet(&rt, rt.alloc(), MEET, cases)
}

#[test]
fn two_workers_meet_in_groups(rt: HostRuntime) -> Result<(), Fail> {
    let cases = "
        sub S [1] => {0 1 2}
        ones Z2 => ones 2
            0 {0}
            1 {0 1}
        make X sub S [1] => algebra X size 3
            op mul 2 = 0 1 2 1 2 0 2 0 1
            end
        hom Z4 Z2 [1] [1] => map 4
            0 0
            1 1
            2 0
            3 1
        central Z4 |0 1 2 3| |0 1 2 3| |0|1|2|3| => central yes
        comm L |0 1| |0 1| => |0 1|
        series S derived => series 3
            |0 1 2 3 4 5|
            |0 1 2|3 4 5|
            |0|1|2|3|4|5|
        types L => types 1
            0 1 type 4 pair 0 1
        cond L maltsev => no 9
            ..
        nu L 3 => yes ..
        jonsson L => chain 2
            ..
        hm Z2 => chain 2
            ..
        day Z2 => chain 2
            ..";
    all_meet(&rt, rt.alloc(), GROUPS, cases)
}
