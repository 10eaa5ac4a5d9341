//! What scripts that are read from texts write.

ghost use Rattle.std.specs.Prelude.{◌≡◌, ℕ, List, Ok};
ghost use Rattle.session_lang.specs.Script.{ScriptPlain};
ghost use Rattle.script_lang.specs.Reading.{said_script};
ghost use Rattle.session_lang.specs.Written.{WritesBytes};

/// Each script that a text says writes bytes, by its heap lines and by its replies.
pub fn read_scripts_write_bytes()
    ensures { (text : List ℕ) (s : ScriptPlain) → said_script text ≡ Ok s → WritesBytes s }
{}
