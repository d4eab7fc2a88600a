//! Laws of the definitions: each function does nothing, and its contract states the law.

ghost use Rattle.std.specs.Prelude.{ℕ, List};
ghost use Rattle.ua_text.specs.Pieces.{tokens_of};
ghost use Rattle.ua_text.specs.Slices.{AreSlices};

/// Each token of a text is the slice of the text at its start, and begins behind the one before.
pub fn slices()
    ensures { (source : List ℕ) → AreSlices source 0 (tokens_of source) }
{}
