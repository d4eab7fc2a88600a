//! What a command may name.

ghost use Rattle.std.specs.Prelude.{◌≡◌, take, option_copied};
ghost use Rattle.ua_reply.specs.Sessions.{lookup};

use crate::known::Known;
use crate::session::Session;
use std::marker::Model;

/// What a command sees of a session, which may have grown since: its first blocks.
///
/// To a contract it is the list of these blocks.
#[derive(Drop)]
pub struct Scope<'s, 'a> {
    session: &'s Session<'a>,
    count: usize,
}

impl<'s, 'a> Model for Scope<'s, 'a> {
    ghost use Rattle.std.specs.Prelude.{List, take};
    ghost use Rattle.ua_text.specs.declared.named.Block.{Block};

    ghost Value = { List Block };

    ghost view = { λ s. take s.count s.session.now };
}

impl<'s, 'a> Scope<'s, 'a> {
    /// The first blocks of a session, as many as `count`.
    pub fn new(session: &'s Session<'a>, count: usize) -> Scope<'s, 'a>
        ensures { result ≡ take count session.now }
    {
        Scope { session, count }
    }

    /// What the first block of this name tells.
    pub fn find(&self, name: &[u8]) -> Option<&Known<'a>>
        ensures { option_copied result ≡ lookup self.now name.now }
    {
        self.session.find_before(name, self.count)
    }
}
