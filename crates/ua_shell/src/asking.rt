//! The script that the words ask for.

ghost use Rattle.std.specs.Prelude.{◌≤◌, IfOk, IfSome};
ghost use Rattle.std.specs.List.{AllByRecursion};
ghost use Rattle.ua_options.specs.declared.words.TheConstants.{SEED};
ghost use Rattle.ua_shell.specs.inner.Outputs.{IsServed};
ghost use Rattle.ua_shell.specs.Reads.{HasScript, IsThere};
ghost use Rattle.ua_shell.specs.inner.Reads.{IsGiven, MayAsk, MayRead};

use crate::generated::generated_script;
use crate::status::Status;
use std::alloc::{AllocError, Global};
use ua_io::{ReadError, Source, read_all};
use ua_script::{Script, parse};
use ua_table::limits::SCRIPT;
use ua_text::ReadFault;

/// The script of the source, or how a run ends without one.
fn read_script<S: Source>(alloc: Global, source: &mut S) -> Result<Script, Status>
    ensures read { MayRead S.left S.faults source.old source.new result }
    ensures given { HasScript S.left S.faults source.old source.new → IsGiven result }
    ensures served { IfOk result (λ script. AllByRecursion IsServed script.items) }
{
    let bytes = match read_all(alloc, source, SCRIPT as u32) {
        Ok(bytes) => bytes,
        Err(ReadError::Fault) => return Err(Status::ReadFault),
        Err(ReadError::TooLong) => return Err(Status::TooLong),
        Err(ReadError::OutOfMemory) => return Err(Status::OutOfMemory),
    };
    match parse(alloc, &bytes) {
        Ok(script) => Ok(script),
        Err(ReadFault::Text(fault)) => Err(Status::Syntax(fault)),
        Err(ReadFault::OutOfMemory) => Err(Status::OutOfMemory),
    }
}

/// The script that is generated from the number, where there is one, and else that of the source; or how a
/// run ends without one.
pub fn asked_script<S: Source>(
    alloc: Global,
    generate: Option<u32>,
    source: &mut S,
) -> Result<Script, Status>
    requires { IfSome generate (λ n. n ≤ SEED) }
    ensures asked { MayAsk S.left S.faults generate source.old source.new result }
    ensures given { IsThere S.left S.faults generate source.old source.new → IsGiven result }
    ensures served { IfOk result (λ script. AllByRecursion IsServed script.items) }
{
    let Some(n) = generate else {
        return read_script(alloc, source);
    };
    match generated_script(alloc, n) {
        Ok(script) => Ok(script),
        Err(AllocError) => Err(Status::OutOfMemory),
    }
}
