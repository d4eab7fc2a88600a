//! What every command is answered with.

use crate::scope::Scope;
use std::alloc::Global;
use std::thread::Threads;
use ua_table::{Gate, Run};

/// What every command is answered with: the runtime, memory, what the script has introduced before it, and
/// the bounds of the run.
#[derive(Drop)]
pub struct Context<'a, 's, 'g, R: Threads + Sync, G: Gate> {
    pub rt: &'a R,
    pub alloc: Global,
    pub session: &'a Scope<'a, 's>,
    pub run: &'a Run<'g, G>,
}
