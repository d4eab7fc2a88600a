//! A law of words.

ghost use Rattle.std.specs.Prelude.{◌≡◌, ℕ, List};
ghost use Rattle.ua_options.specs.declared.words.Settings.{Settings};
ghost use Rattle.ua_options.specs.Words.{Asks};

/// Words ask for the same settings in every reading.
pub fn one_reading()
    ensures { (words : List (List ℕ)) (s t : Settings) → Asks words s → Asks words t → s ≡ t }
{}
