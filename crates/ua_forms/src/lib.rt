//! The words of the commands of scripts. The reader of a single block knows them only to say of each that its form is not built.
#![tactic(auto)]

ghost use Rattle.std.specs.Prelude.{◌≡◌, map};
ghost use Rattle.ua_forms.specs.Words.{command_words};

/// The words of commands.
const COMMAND_WORDS: &[&[u8]] = &[
    b"close",
    b"member",
    b"cond",
    b"nu",
    b"jonsson",
    b"hm",
    b"free",
    b"sub",
    b"ones",
    b"eval",
    b"cg",
    b"con",
    b"types",
    b"central",
    b"comm",
    b"series",
    b"holds",
    b"hom",
    b"check",
    b"make",
    b"cert",
    b"day",
    b"condition",
    b"clone",
];

/// The words of commands.
pub fn command_words() -> &'static [&'static [u8]]
    ensures { map (λ word. word.now) result.now ≡ command_words }
{
    COMMAND_WORDS
}
