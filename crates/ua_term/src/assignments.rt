//! Assignments of elements to variables: how many there are, and what they give to a variable.

ghost use Rattle.std.specs.Prelude.{◌≡◌, ◌<◌, ◌≤◌, ◌^◌, ◌++◌, replicate, OnOk};
ghost use Rattle.std.specs.List.{flat_map, range_with_len};
ghost use Rattle.ua_table.specs.declared.limits.TheConstants.{SIZE, VARIABLES, WIDTH};
ghost use Rattle.ua_term.specs.Assignments.{projection};

use std::alloc::AllocError;
use ua_table::Elem;
use ua_table::limits::{SIZE, VARIABLES, WIDTH};

/// How many assignments of so many elements to so many variables there are.
pub fn assignment_count(size: u32, variables: u8) -> u128
    requires size { size ≤ SIZE }
    requires variables { variables ≤ VARIABLES }
    ensures count { result ≡ size ^ variables }
    ensures small { result ≤ SIZE ^ VARIABLES }
{
    u128::from(size).pow(u32::from(variables))
}

/// Appends an element so often.
fn append_run(row: &mut Vec<Elem>, x: Elem, often: u32) -> Result<(), AllocError>
    ensures { OnOk result (row.new.items ≡ row.old.items ++ replicate often x) }
{
    for _ in 0..often {
        row.push(x)?;
    }
    Ok(())
}

/// Appends each of so many elements so often.
fn append_round(row: &mut Vec<Elem>, size: u32, often: u32) -> Result<(), AllocError>
    requires { size ≤ SIZE }
    ensures { OnOk result (row.new.items ≡ row.old.items ++ flat_map (replicate often) (range_with_len 0 size)) }
{
    for x in 0..size {
        append_run(row, x as Elem, often)?;
    }
    Ok(())
}

/// Appends what each assignment gives to a variable, in lexicographic order of the assignments.
pub fn append_values(
    row: &mut Vec<Elem>,
    size: u32,
    variables: u8,
    variable: u8,
) -> Result<(), AllocError>
    requires some { 0 < size }
    requires small { size ≤ SIZE }
    requires named { variable < variables }
    requires narrow { size ^ variables ≤ WIDTH }
    ensures { OnOk result (row.new.items ≡ row.old.items ++ projection size variables variable) }
{
    // The variables behind it go through all their values before it goes on.
    let often = size.pow(u32::from(variables - 1 - variable));
    for _ in 0..size.pow(u32::from(variable)) {
        append_round(row, size, often)?;
    }
    Ok(())
}
