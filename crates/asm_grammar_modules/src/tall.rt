//! Modules with their heights.

ghost use Rattle.std.specs.Prelude.{◌≡◌};
ghost use Rattle.asm_lang.specs.TreeHeights.{whole_height};
ghost use Rattle.asm_grammar_nodes.specs.Heights.{counted};
ghost use Rattle.asm_grammar_nodes.specs.Views.{module_view};

use asm_grammar_nodes::{Height, ModuleTree};

/// A module, and how high it is.
pub struct TallModule {
    pub tree: ModuleTree,
    pub height: Height,
    ghost high: { height.count ≡ counted (whole_height (module_view tree)) },
}

/// By hand, so that the end of a module is one call wherever it is let go.
impl Drop for TallModule {
    fn drop(self) {
        let TallModule { tree: _, height: _ } = self;
    }
}

impl TallModule {
    pub fn into_tree(self) -> ModuleTree
        ensures { result ≡ self.tree }
    {
        let TallModule { tree, height: _ } = self;
        tree
    }
}
