//! Scripts of version 1 as scripts of version 2.

ghost use Rattle.std.specs.Prelude.{◌≡◌, ℕ, List};
ghost use Rattle.ua_script.specs.Grammar.{migrated, IsWellFormed};

use crate::script::Script;

/// The script of version 2 with the same items. It takes no memory.
pub fn migrate(script: Script) -> Script
    ensures same { result ≡ migrated script }
    ensures formed { IsWellFormed script → IsWellFormed result }
{
    Script {
        version: 2,
        items: script.items,
    }
}
