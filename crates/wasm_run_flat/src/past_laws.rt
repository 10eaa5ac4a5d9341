//! WebAssembly: places of a flat body that a translator comes to.

ghost use Rattle.wasm_run_flat.specs.PastLaws.{PastBlock, PastLoop, PastIf};

/// What stands past a block, a loop and an if.
pub fn past_blocks()
    ensures block { PastBlock }
    ensures loop_end { PastLoop }
    ensures arms { PastIf }
{}
