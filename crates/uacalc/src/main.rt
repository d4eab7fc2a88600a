//! The program: standard input and output, and the status line.
#![tactic(auto)]

use std::alloc::Global;
use std::env::{self, Env};
use std::io::{self, ErrorKind};
use std::process::ExitCode;
use ua_io::{StdSink, StdSource};
use ua_shell::{Status, run};
use ua_table::FreeGate;

fn main(rt: HostRuntime) -> ExitCode {
    let status = match words(&rt) {
        Ok(words) => {
            let mut source = StdSource::new(rt.stdin());
            let mut sink = StdSink::new(rt.stdout());
            run(&rt, rt.alloc(), &words, &mut source, &mut sink, &FreeGate)
        }
        Err(status) => status,
    };
    let _ = tell(&rt, &status);
    ExitCode::from(status.code())
}

/// The words behind the program's name. A word that is not UTF-8 is in no stated form.
fn words<R: Env + Alloc<A = Global>>(rt: &R) -> Result<Vec<String>, Status> {
    let given = match env::args(rt) {
        Ok(given) => given,
        Err(error) if error.kind() == ErrorKind::OutOfMemory => return Err(Status::OutOfMemory),
        Err(_) => return Err(Status::Usage),
    };
    let mut words = Vec::new(rt.alloc());
    for word in given.skip(1) {
        if words.push(word).is_err() {
            return Err(Status::OutOfMemory);
        }
    }
    Ok(words)
}

/// Prints the line of the status to standard error, where it has one.
fn tell(rt: &impl Eprint, status: &Status) -> io::Result<()> {
    match status {
        Status::Done => Ok(()),
        Status::Usage => rt.eprintln(
            "usage: uacalc [--workers 1..16] [--budget 1..1000000] [--jobs 1..16] [--generate NUMBER]",
        ),
        Status::ReadFault => rt.eprintln("read fault"),
        Status::WriteFault => rt.eprintln("write fault"),
        Status::Syntax(fault) => {
            let line = fault.line;
            let column = fault.column;
            let kind = fault.kind.word();
            eprintln!(rt; "syntax {line}:{column} {kind}")
        }
        Status::OutOfMemory => rt.eprintln("out of memory"),
        Status::TooLong => rt.eprintln("too long"),
    }
}
