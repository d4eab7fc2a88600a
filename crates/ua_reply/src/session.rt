//! What a script has introduced, found by name.

ghost use Rattle.std.specs.Prelude.{◌≡◌, ◌++◌, [], ◌∷◌, length, take, option_copied, OnOk, OnErr};
ghost use Rattle.ua_text.specs.Blocks.{unnamed};
ghost use Rattle.ua_reply.specs.Sessions.{lookup};

use crate::known::Known;
use indexmap::IndexMap;
use std::alloc::{AllocError, Global};
use std::marker::Model;
use ua_table::{Algebra, Name};
use ua_text::Block;

/// What a script has introduced so far, in order. A look-up by name takes constant time on the average.
///
/// To a contract it is the list of blocks.
#[derive(Drop)]
pub struct Session<'a> {
    alloc: Global,
    knowns: Vec<Known<'a>>,
    /// The first place of each name.
    places: IndexMap<&'a [u8], usize>,
}

impl<'a> Model for Session<'a> {
    ghost use Rattle.std.specs.Prelude.{nat_eq, List};
    ghost use Rattle.std.specs.Cmp.Lexicographic.{pointwise};
    ghost use Rattle.indexmap.specs.IndexMap.{get_by};
    ghost use Rattle.ua_text.specs.declared.named.Block.{Block};
    ghost use Rattle.ua_reply.specs.Sessions.{ArePlaces};

    ghost Value = { List Block };

    ghost view = { λ a. a.knowns.items };

    ghost invariant = { λ a. ArePlaces a.knowns.items (λ t. get_by (λ k. pointwise nat_eq t k.now) a.places) };
}

impl<'a> Session<'a> {
    /// The session that knows nothing. It takes no memory.
    pub fn new(alloc: Global) -> Session<'a>
        ensures { result ≡ [] }
    {
        Session {
            alloc,
            knowns: Vec::new(alloc),
            places: IndexMap::new(alloc),
        }
    }

    /// How many blocks the session has.
    pub fn len(&self) -> usize
        ensures { result ≡ length self.now }
    {
        self.knowns.len()
    }

    /// What the first blocks, as many as `count`, tell of this name.
    pub(crate) fn find_before(&self, name: &[u8], count: usize) -> Option<&Known<'a>>
        ensures { option_copied result ≡ lookup (take count self.now) name.now }
    {
        let place = self.places.get(name)?;
        if *place >= count {
            return None;
        }
        Some(&self.knowns[*place])
    }

    /// What is known joins the session under its name. After want of memory the session is as it was.
    fn enter(&mut self, name: &'a [u8], known: Known<'a>) -> Result<(), AllocError>
        requires { name.now ≡ known.algebra.name }
        ensures ok { OnOk result (self.new ≡ self.old ++ known.entry ∷ []) }
        ensures err { OnErr result (self.new ≡ self.old) }
    {
        self.knowns.reserve(1)?;
        if self.places.get(name).is_none() {
            self.places.insert(name, self.knowns.len())?;
        }
        self.knowns.push(known).unwrap();
        Ok(())
    }

    /// A block joins the session. After want of memory the session is as it was.
    pub fn introduce(&mut self, block: &'a Block) -> Result<(), AllocError>
        ensures ok { OnOk result (self.new ≡ self.old ++ block.now ∷ []) }
        ensures err { OnErr result (self.new ≡ self.old) }
    {
        let known = Known::written(self.alloc, block)?;
        self.enter(block.algebra.name().text(), known)
    }

    /// An algebra that a command made joins the session under this name, which is its own. After want of
    /// memory the session is as it was.
    pub fn introduce_made(&mut self, name: &'a Name, algebra: Algebra) -> Result<(), AllocError>
        requires { name.now ≡ algebra.name }
        ensures ok { OnOk result (self.new ≡ self.old ++ unnamed algebra ∷ []) }
        ensures err { OnErr result (self.new ≡ self.old) }
    {
        let known = Known::made(self.alloc, algebra)?;
        self.enter(name.text(), known)
    }
}
