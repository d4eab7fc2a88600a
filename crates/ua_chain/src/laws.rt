//! Laws of chains of terms: each function does nothing, and its contract states them.

ghost use Rattle.std.specs.Prelude.{◌≡◌, ◌↔◌, ◌≤◌, ℕ, List};
ghost use Rattle.ua_table.specs.Algebras.{FiniteAlgebra, IsAlgebra};
ghost use Rattle.ua_table.specs.Terms.{Tree};
ghost use Rattle.ua_identity.specs.Chains.{ChainKind, IsLeastChain, chain_length};
ghost use Rattle.ua_identity.specs.Kinds.{IsKind, jonsson, hagemann_mitschke, day};
ghost use Rattle.ua_chain.specs.Names.{kind_named};
ghost use Rattle.ua_chain.specs.Permitted.{CanTellChain, CanTellMadeChains};
ghost use Rattle.ua_chain.specs.declared.least_chains.NamedKind.{NamedKind};

use std::alloc::Global;

/// The parts of each kind of chain fit together, and a least chain has length 0 exactly where the algebra has
/// one element.
pub fn chains()
    ensures jonsson { IsKind jonsson }
    ensures hagemann_mitschke { IsKind hagemann_mitschke }
    ensures day { IsKind day }
    ensures length { (a : FiniteAlgebra) (kind : ChainKind) (terms : List Tree) → IsKind kind → IsLeastChain a kind terms → (chain_length terms ≡ 0) ↔ (a.size ≤ 1) }
{}

/// A least chain can be told, or that there is none, otherwise than by want of memory: for each kind that has a name, and
/// for each that is made of the numbers of its patterns. The allocator serves to speak of an answer in memory.
pub fn answers(_alloc: Global)
    ensures made { (a : FiniteAlgebra) → CanTellMadeChains a }
    ensures named { (a : FiniteAlgebra) (name : NamedKind) (b w : ℕ) → IsAlgebra a → CanTellChain a (kind_named name) b w }
{}
