//! The replies to the commands on algebras, terms and maps, to `make` and to `check`, one module each.
#![tactic(auto)]

mod answered;
mod check;
mod close;
mod closing;
mod eval;
mod free;
mod generated_by_one;
mod hom;
pub mod laws;
mod make;
mod member;
mod reduct;
mod sub;

pub use answered::{Answered, Made, said};
pub use check::answer_check;
pub use close::answer_close;
pub use eval::answer_eval;
pub use free::answer_free;
pub use generated_by_one::answer_ones;
pub use hom::answer_hom;
pub use make::answer_make;
pub use member::answer_member;
pub use sub::answer_sub;
