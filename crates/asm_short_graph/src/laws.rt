//! What is reached in the graph is what is reached in the module.

ghost use Rattle.std.specs.Prelude.{◌≤◌, Bool, List, length, drop};
ghost use Rattle.asm_lang.specs.Modules.{Module};
ghost use Rattle.asm_lang_valid.specs.Refusal.{IsAccepted};
ghost use Rattle.asm_short_lang.specs.Reached.{IsReached, IsEntered, Keeps};
ghost use Rattle.asm_short_graph.specs.Marks.{AreMarks};
ghost use Rattle.asm_short_graph.specs.Picked.{picked};

/// Of an accepted module the marked functions are those that are reached, and the marked tables those of which a reached function
/// calls members.
pub fn marks_are_exact()
    ensures functions { (m : Module) (marks : List Bool) → IsAccepted m → AreMarks m marks → Keeps (IsReached m) m.functions (picked marks m.functions) }
    ensures tables { (m : Module) (marks : List Bool) → IsAccepted m → AreMarks m marks → Keeps (IsEntered m) m.tables (picked (drop (length m.functions) marks) m.tables) }
    ensures room { (m : Module) (marks : List Bool) → AreMarks m marks → length m.functions ≤ length marks }
{}
