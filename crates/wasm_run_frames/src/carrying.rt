//! Operands that come out of blocks.
ghost use Rattle.std.specs.Prelude.{◌≡◌, None, MatchBool};
ghost use Rattle.wasm_lang_exec.specs.Reductions.{top_of};
ghost use Rattle.wasm_laws_machine.specs.Carrying.{Carries, ComesDown};

use wasm_run_operands::Operands;

/// The operands of the block come to those of the block outside, above `floor` operands. Nothing is changed where fewer stand below
/// the block.
pub fn come_down(operands: &mut Operands, floor: usize)
    ensures { ComesDown floor operands.old.values operands.old.below operands.new.values operands.new.below }
{
    if floor <= operands.floor() {
        operands.leave(floor);
    }
}

/// The topmost `arity` operands of the block come out of all blocks above `floor` operands, and stand on those of the next one, above
/// `outer` operands. False, and nothing is changed, exactly where the block has fewer.
pub fn carry(operands: &mut Operands, arity: usize, floor: usize, outer: usize) -> bool
    ensures { MatchBool result
        (Carries arity floor outer operands.old.values operands.old.below operands.new.values operands.new.below)
        (top_of arity operands.old.values ≡ None) }
{
    if !operands.keep(arity) {
        return false;
    }
    come_down(operands, floor);
    let _ = operands.keep(arity);
    come_down(operands, outer);
    true
}
