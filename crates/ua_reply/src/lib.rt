//! What replies are made of: the session, the operands and their checks, refusals, and texts.
#![tactic(auto)]

mod checks;
mod closures;
mod context;
mod known;
mod operands;
mod parts;
mod refusals;
mod scope;
mod session;
mod texts;

pub use checks::FirstErrors;
pub use closures::{cause_reply, closure_reply, member_reply, size_reply};
pub use context::Context;
pub use known::Known;
pub use operands::{
    element_of, elements, elements_in, length_in, pairs, positive, power, term_in, variables_in,
    vector, vector_in, vectors, vectors_in,
};
pub use parts::{part, part_in};
pub use refusals::{Refusal, congruence_reply, refusal_reply};
pub use scope::Scope;
pub use session::Session;
pub use texts::{
    push_counted, push_counted_steps, push_element, push_listed, push_more, push_origin, push_pair,
    push_part, push_place, push_rows, push_set, push_steps, push_tuple, push_vector,
};
