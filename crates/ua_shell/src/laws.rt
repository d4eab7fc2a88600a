//! Laws of outputs: each function does nothing, and its contract states them.

ghost use Rattle.std.specs.Prelude.{◌↔◌, ◌≤◌, ℕ, List, length};
ghost use Rattle.ua_table.specs.declared.limits.TheConstants.{SCRIPT};
ghost use Rattle.ua_options.specs.declared.words.Settings.{Settings};
ghost use Rattle.ua_options.specs.Words.{Asks};
ghost use Rattle.ua_script.specs.declared.script.Script.{Script};
ghost use Rattle.ua_script.specs.Grammar.{migrated, IsScript};
ghost use Rattle.ua_reply.specs.Sessions.{Bounds, AreBounds};
ghost use Rattle.ua_shell.specs.Generated.{generated};
ghost use Rattle.ua_shell.specs.Runs.{bounds_in};
ghost use Rattle.ua_shell.specs.Outputs.{Output, BegunOutput, HasOutput};

use std::alloc::Global;

/// A script and the migrated script have the same outputs, and the same beginnings of outputs.
pub fn migration()
    ensures whole { (b : Bounds) (script : Script) (bytes : List ℕ) → Output b (migrated script) bytes ↔ Output b script bytes }
    ensures begun { (b : Bounds) (script : Script) (bytes : List ℕ) → BegunOutput b (migrated script) bytes ↔ BegunOutput b script bytes }
{}

/// For the bounds that words ask for, each text that is a script has an output, and so has the script that is generated from
/// a number; and each beginning of an output is the front of one. The allocator serves to speak of an answer in memory.
pub fn outputs(alloc: Global)
    ensures bounds { (words : List (List ℕ)) (settings : Settings) → Asks words settings → AreBounds (bounds_in settings) }
    ensures read { (b : Bounds) (bytes : List ℕ) (script : Script) → AreBounds b → length bytes ≤ SCRIPT → IsScript bytes script → HasOutput b script }
    ensures generated { (b : Bounds) (n : ℕ) → AreBounds b → HasOutput b (generated n) }
{
    ua_answer::laws::replies(alloc);
}
