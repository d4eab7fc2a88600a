//! Commands that are answered side by side.

use crate::gates::Meeting;
use crate::runs::told_by;
use std::test::Fail;
use ua_cases::same;

#[test]
fn two_commands_meet(rt: HostRuntime) -> Result<(), Fail> {
    let meeting = Meeting::new(0);
    let script = b"algebra M size 2
op meet 2 = 0 0 0 1
end
close M 2 [0 1] [1 0] count close M 2 [0 1] [1 0] count";
    let words = "--jobs 2 --workers 1";
    let found = told_by(&rt, rt.alloc(), words, script, 1_000, &[], &[], &meeting)?;
    assert!(rt; meeting.met());
    same("a meeting", found.as_str(), "Done: closed 3\nclosed 3\n")
}
