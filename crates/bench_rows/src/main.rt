//! Rows at length: a closure under one binary operation, pushes and look-ups, or sums of two rows, for
//! bench/rows.sh to time.
#![tactic(auto)]

mod applying;
mod closing;
mod filling;

use applying::apply_sums;
use closing::close_sums;
use filling::fill;
use std::io;

/// The numbers of the input after its first word, where each is one.
fn number(word: Option<&str>) -> u32 {
    match word {
        Some(word) => word.parse().unwrap_or(0),
        None => 0,
    }
}

/// Reads `close SIZE GENERATORS WIDTH` or `fill COUNT TIMES`, and prints how many rows there are; or
/// `apply SIZE WIDTH TIMES`, and prints an entry of the sum.
fn main(rt: HostRuntime) -> io::Result<()> {
    let alloc = rt.alloc();
    let text = io::read_to_string(alloc, rt.reader())?;
    let mut words = text.as_str().split_whitespace();
    let task = words.next().unwrap_or("");
    let first = number(words.next());
    let second = number(words.next());
    let third = number(words.next());
    let answer = match task {
        "close" => close_sums(alloc, first, second, third)?,
        "fill" => fill(alloc, first, second)?,
        "apply" => apply_sums(alloc, first, second, third)?,
        _ => 0,
    };
    println!(rt; "{answer}")
}
