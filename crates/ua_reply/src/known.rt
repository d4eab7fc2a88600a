//! What a session knows of a name.

use std::alloc::{AllocError, Global};
use std::marker::Model;
use ua_table::{Algebra, Listed, Name};
use ua_text::{Block, Labels};

/// A block of the script, or one that a command made.
#[derive(Drop)]
enum Holder<'a> {
    Written(&'a Block),
    Made(Block),
}

/// What a session knows of a name: an algebra, and the names of its elements, found by their texts. An
/// algebra that a command made has none.
///
/// To a contract it is the block.
#[derive(Drop)]
pub struct Known<'a> {
    holder: Holder<'a>,
    labels: Labels<'a>,
}

impl<'a> Model for Known<'a> {
    ghost use Rattle.std.specs.Prelude.{◌≡◌};
    ghost use Rattle.ua_text.specs.declared.named.Block.{Block};
    ghost use Rattle.ua_reply.specs.Sessions.{held};

    ghost Value = { Block };

    ghost view = { λ a. held a.holder };

    ghost invariant = { λ a. a.labels ≡ (held a.holder).names };
}

impl<'a> Known<'a> {
    ghost use Rattle.std.specs.Prelude.{◌≡◌, IfOk};
    ghost use Rattle.ua_text.specs.Labels.{place_in};
    ghost use Rattle.ua_text.specs.Blocks.{unnamed};

    /// A block of the script.
    pub fn written(alloc: Global, block: &'a Block) -> Result<Known<'a>, AllocError>
        ensures { IfOk result (λ known. known ≡ block.now) }
    {
        let labels = Labels::new(alloc, block.names.as_slice())?;
        Ok(Known {
            holder: Holder::Written(block),
            labels,
        })
    }

    /// An algebra that a command made.
    pub fn made(alloc: Global, algebra: Algebra) -> Result<Known<'a>, AllocError>
        ensures { IfOk result (λ known. known ≡ unnamed algebra) }
    {
        let labels = Labels::new(alloc, &[])?;
        let names = Listed::new(Vec::new(alloc));
        Ok(Known {
            holder: Holder::Made(Block { algebra, names }),
            labels,
        })
    }

    /// The block of the script, or the one that a command made.
    pub fn block(&self) -> &Block
        ensures { result.now ≡ self.now }
    {
        match &self.holder {
            Holder::Written(block) => block,
            Holder::Made(block) => block,
        }
    }

    /// The algebra of the name.
    pub fn algebra(&self) -> &Algebra
        ensures { result.now ≡ self.now.algebra }
    {
        &self.block().algebra
    }

    /// The names of the elements in their order, or none.
    pub fn names(&self) -> &[Name]
        ensures { result.now ≡ self.now.names }
    {
        self.block().names.as_slice()
    }

    /// The element of this name, in time logarithmic in their number.
    pub fn place_of(&self, name: &[u8]) -> Option<usize>
        ensures { result ≡ place_in 0 self.now.names name.now }
    {
        self.labels.place_of(name)
    }
}
