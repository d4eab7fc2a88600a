//! Cases of tests, as the lines of a text. Tests alone stand on it.
#![tactic(auto)]

mod cases;
mod texts;

pub use cases::{Asked, expect, expect_behind, expect_of, same};
pub use texts::{nested, number, part, put_bytes, put_flag, put_value_of, put_word, spelled};
