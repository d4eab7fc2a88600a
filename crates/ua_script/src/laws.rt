//! Laws of scripts: the function does nothing, and its contract states them.

ghost use Rattle.std.specs.Prelude.{◌≡◌, ◌≤◌, ℕ, List, length};
ghost use Rattle.ua_table.specs.declared.limits.TheConstants.{SCRIPT};
ghost use Rattle.ua_text.specs.declared.named.Block.{Block};
ghost use Rattle.ua_text.specs.Pieces.{Placed};
ghost use Rattle.ua_text.specs.Reading.{IsBlockAt};
ghost use Rattle.ua_term.specs.Phrases.{Phrase};
ghost use Rattle.ua_term.specs.Reading.{IsTermAt};
ghost use Rattle.ua_script.specs.declared.script.Script.{Script};
ghost use Rattle.ua_script.specs.Grammar.{IsScript};

/// A text within the limit is at most one script: one version, and one list of items. Of its tokens at most one block
/// stands at the front, and at most one term; so what is left behind it is the same too.
pub fn one_reading()
    ensures script { (bytes : List ℕ) (s t : Script) → length bytes ≤ SCRIPT → IsScript bytes s → IsScript bytes t → s ≡ t }
    ensures block { (version : ℕ) (ts left right : List Placed) (b c : Block) → length ts ≤ SCRIPT → IsBlockAt version b ts left → IsBlockAt version c ts right → (b ≡ c) × (left ≡ right) }
    ensures term { (ts left right : List Placed) (p q : Phrase) → IsTermAt p ts left → IsTermAt q ts right → (p ≡ q) × (left ≡ right) }
{}
