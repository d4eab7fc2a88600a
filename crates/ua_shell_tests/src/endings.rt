//! A source and a sink that fail.

use crate::runs::told;
use std::test::Fail;
use ua_cases::same;
use ua_shell::Status;

const SCRIPT_OF_THREE: &[u8] = b"algebra M size 2
op meet 2 = 0 0 0 1
end
close M 2 close M 2 close M 2";

#[test]
fn faults_of_the_source_and_the_sink(rt: HostRuntime) -> Result<(), Fail> {
    let alloc = rt.alloc();
    let read = told(&rt, alloc, "", SCRIPT_OF_THREE, &[0], &[])?;
    let written = told(&rt, alloc, "", SCRIPT_OF_THREE, &[], &[2])?;
    same("the first read", read.as_str(), "ReadFault: ")?;
    let wanted = "WriteFault: closed 0\nclosed 0\n";
    same("the third write", written.as_str(), wanted)
}

/// What a sink takes before it fails is written, also where two commands are answered side by side.
#[test]
fn a_sink_fails_between_replies(rt: HostRuntime) -> Result<(), Fail> {
    let found = told(&rt, rt.alloc(), "--jobs 2", SCRIPT_OF_THREE, &[], &[2])?;
    let wanted = "WriteFault: closed 0\nclosed 0\n";
    same("the third write", found.as_str(), wanted)
}

#[test]
fn codes(rt: HostRuntime) {
    assert_eq!(rt; Status::Done.code(), 0);
    assert_eq!(rt; Status::Usage.code(), 2);
    assert_eq!(rt; Status::TooLong.code(), 7);
}
