//! The words behind the program's name.

ghost use Rattle.std.specs.Prelude.{◌≡◌, ℕ, Option, codes, map, option_map, string_bytes, IfOk, IfSome, IfNone};
ghost use Rattle.std.specs.List.{list_any};
ghost use Rattle.std.specs.Str.{bytes_eq};
ghost use Rattle.clap.specs.Simple.{app_of, with_rule};
ghost use Rattle.ua_options.specs.Words.{Asks, AreAccepted, IsNumber, IsSeed, Writes};
ghost use Rattle.ua_options.specs.inner.Options.{option_rule, options_app, has_plain_front, GiveValues, KeepsValues};
ghost use Rattle.ua_table.specs.declared.limits.TheConstants.{BUDGET, POOL, WORKERS};

use clap::error::ErrorKind;
use clap::{Arg, Command};
use std::alloc::{AllocError, Global};
use ua_table::limits::{BUDGET, POOL, WORKERS};

/// How many workers there are where no word tells it.
pub const USUAL_WORKERS: u32 = 4;

/// The budget where no word tells it, in members of a closure.
pub const USUAL_BUDGET: u32 = 10_000;

/// How many commands are answered side by side where no word tells it.
pub const USUAL_JOBS: u32 = 1;

/// The greatest number that a script is generated from.
pub const SEED: u32 = 2_147_483_647;

/// What the words ask for: so many commands are answered side by side, each by so many workers. With
/// `generate` no script is read: one is generated from this number.
#[derive(Clone, Copy, Debug, PartialEq, Eq)]
pub struct Settings {
    pub workers: u32,
    pub budget: u32,
    pub jobs: u32,
    pub generate: Option<u32>,
}

/// The values of the options, as they stand in the words.
#[derive(Clone, Copy)]
struct Values<'a> {
    workers: Option<&'a str>,
    budget: Option<&'a str>,
    jobs: Option<&'a str>,
    generate: Option<&'a str>,
}

/// One option more, with a value.
fn with_option<'a>(
    alloc: Global,
    command: Command<'a>,
    name: &'a str,
) -> Result<Command<'a>, AllocError>
    ensures { IfOk result (λ made. app_of made ≡ with_rule (app_of command.entry) (option_rule name.now)) }
{
    command.arg(Arg::new(alloc, name).long(name))
}

/// The options, each with a value, and no help.
fn command<'a>(alloc: Global) -> Result<Command<'a>, AllocError>
    ensures { IfOk result (λ made. app_of made ≡ options_app) }
{
    let bare = Command::new(alloc, "uacalc")
        .no_binary_name(true)
        .disable_help_flag(true);
    let workers = with_option(alloc, bare, "workers")?;
    let budget = with_option(alloc, workers, "budget")?;
    let jobs = with_option(alloc, budget, "jobs")?;
    with_option(alloc, jobs, "generate")
}

/// Whether a word is `--`, which `clap` takes as the end of the options.
fn has_dashes(words: &[String]) -> bool
    ensures { result ≡ list_any (λ word. bytes_eq (string_bytes word) (codes "--")) words.now }
{
    words.iter().any(|word| word.as_str() == "--")
}

/// The values that the words give to the options, each at most once.
fn values_of<'a>(alloc: Global, words: &'a [String]) -> Result<Option<Values<'a>>, AllocError>
    ensures given { IfOk result (λ found. IfSome found (GiveValues (map string_bytes words.entry.now))) }
    ensures kept { IfOk result (λ found. KeepsValues (map string_bytes words.entry.now) found) }
{
    if has_dashes(words) {
        return Ok(None);
    }
    match command(alloc)?.try_get_matches_from(words) {
        Ok(matches) => Ok(Some(Values {
            workers: matches.get_str("workers"),
            budget: matches.get_str("budget"),
            jobs: matches.get_str("jobs"),
            generate: matches.get_str("generate"),
        })),
        Err(error) if error.kind() == ErrorKind::OutOfMemory => Err(AllocError),
        Err(_) => Ok(None),
    }
}

/// Whether neither a plus nor a zero before other digits stands first.
fn has_plain_front(text: &[u8]) -> bool
    ensures { result ≡ has_plain_front text.now }
{
    match text.split_first() {
        None => false,
        Some((first, others)) => *first != b'+' && (*first != b'0' || others.len() == 0),
    }
}

/// The number up to the greatest that the text writes.
fn written_number(text: &str, greatest: u32) -> Option<u32>
    ensures is { IfSome result (λ n. Writes greatest text.now n) }
    ensures none { IfNone result ((n : ℕ) → Writes greatest text.now n → ⊥) }
{
    if !has_plain_front(text.as_bytes()) {
        return None;
    }
    let n: u32 = text.parse().ok()?;
    if n > greatest {
        return None;
    }
    Some(n)
}

/// The number that an option's value writes, from 1 to the greatest; with no value the usual one.
fn number(value: Option<&str>, usual: u32, greatest: u32) -> Option<u32>
    ensures is { IfSome result (λ n. IsNumber usual greatest (option_map (λ text. text.now) value.entry) n) }
    ensures none { IfNone result ((n : ℕ) → IsNumber usual greatest (option_map (λ text. text.now) value.entry) n → ⊥) }
{
    let Some(text) = value else {
        return Some(usual);
    };
    let n = written_number(text, greatest)?;
    if n < 1 {
        return None;
    }
    Some(n)
}

/// The number that an option's value writes, or None where it writes none; without a value there is none.
fn seed(value: Option<&str>) -> Option<Option<u32>>
    ensures is { IfSome result (λ n. IsSeed (option_map (λ text. text.now) value.entry) n) }
    ensures none { IfNone result ((n : Option ℕ) → IsSeed (option_map (λ text. text.now) value.entry) n → ⊥) }
{
    let Some(text) = value else {
        return Some(None);
    };
    let n = written_number(text, SEED)?;
    Some(Some(n))
}

/// What the words ask for, or None where they are not in the stated form.
///
/// Without options there are `USUAL_WORKERS` and `USUAL_JOBS`, and the budget is `USUAL_BUDGET`. All workers of
/// all jobs are at most `limits::WORKERS`.
pub fn settings_of(alloc: Global, words: &[String]) -> Result<Option<Settings>, AllocError>
    ensures asks { IfOk result (λ found. IfSome found (λ settings. Asks (map string_bytes words.now) settings)) }
    ensures refused { IfOk result (λ found. IfNone found (AreAccepted (map string_bytes words.now) → ⊥)) }
{
    let Some(values) = values_of(alloc, words)? else {
        return Ok(None);
    };
    let Some(workers) = number(values.workers, USUAL_WORKERS, WORKERS) else {
        return Ok(None);
    };
    let Some(budget) = number(values.budget, USUAL_BUDGET, BUDGET) else {
        return Ok(None);
    };
    let Some(jobs) = number(values.jobs, USUAL_JOBS, POOL) else {
        return Ok(None);
    };
    let together = u64::from(jobs) * u64::from(workers);
    if together > u64::from(WORKERS) {
        return Ok(None);
    }
    let Some(generate) = seed(values.generate) else {
        return Ok(None);
    };
    Ok(Some(Settings {
        workers,
        budget,
        jobs,
        generate,
    }))
}
