//! Cases as lines: what is asked of a text, and its answer as text.

ghost use Rattle.std.specs.Prelude.{◌≡◌, IfOk};

use crate::texts::spelled;
use std::alloc::Global;
use std::test::Fail;

/// What is asked of a text.
pub trait Asked {
    /// Asks it, and puts the answer.
    fn put_answer(&self, alloc: Global, text: &str, answer: &mut String) -> Result<(), Fail>;
}

/// The first lines of two texts that differ, or the texts where one goes on behind the other.
fn difference<'a>(found: &'a str, wanted: &'a str) -> (&'a str, &'a str) {
    for (line, other) in found.lines().zip(wanted.lines()) {
        if line != other {
            return (line, other);
        }
    }
    (found, wanted)
}

/// Compares what is found with what is wanted in this matter.
pub fn same(matter: &str, found: &str, wanted: &str) -> Result<(), Fail>
    ensures { IfOk result (λ _. found.now ≡ wanted.now) }
{
    if found == wanted {
        Ok(())
    } else {
        let (line, other) = difference(found, wanted);
        Err(Fail::new(format_args!("{line}, and not {other}: {matter}")))
    }
}

/// Asks it of a text, and compares the answer.
pub fn expect_of<A: Asked>(alloc: Global, asked: &A, text: &str, wanted: &str) -> Result<(), Fail> {
    let mut answer = String::new(alloc);
    asked.put_answer(alloc, text, &mut answer)?;
    same(text, answer.as_str(), wanted)
}

/// The same of a text behind another, with a newline for each `~` of the text and of the answer.
fn expect_spelled<A: Asked>(
    alloc: Global,
    asked: &A,
    front: &str,
    text: &str,
    wanted: &str,
) -> Result<(), Fail> {
    let text = spelled(alloc, front, text)?;
    let wanted = spelled(alloc, "", wanted)?;
    expect_of(alloc, asked, text.as_str(), wanted.as_str())
}

/// Asks it of the text that each line begins with, behind a front, and compares the answer with the rest of the line.
pub fn expect_behind<A: Asked>(
    alloc: Global,
    asked: &A,
    front: &str,
    cases: &str,
) -> Result<(), Fail> {
    for line in cases.trim().lines() {
        let (text, wanted) = line.split_once("=>").ok_or("no answer")?;
        expect_spelled(alloc, asked, front, text.trim(), wanted.trim())?;
    }
    Ok(())
}

/// The same with nothing in front.
pub fn expect<A: Asked>(alloc: Global, asked: &A, cases: &str) -> Result<(), Fail> {
    expect_behind(alloc, asked, "", cases)
}
