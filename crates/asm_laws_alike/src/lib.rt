//! asm.js: modules whose code differs in names alone have equal sessions, at every budget.
#![tactic(auto)]

ghost use Rattle.asm_laws_alike.specs.Alike.{AlikeAreSameOutside};

/// Two modules are alike where their functions are paired, paired functions have the same form, and each name stands in both
/// for the same variable, view or import, or for paired functions and tables of such. Then no caller tells them apart: the
/// same scripts fit both, and show the same at every budget, wrong sessions included.
pub fn alike_modules()
    ensures outside { AlikeAreSameOutside }
{}
