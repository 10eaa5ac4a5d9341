//! Functions with their heights.

ghost use Rattle.std.specs.Prelude.{◌≡◌, min};
ghost use Rattle.sem_words.specs.Lists.{list_items};
ghost use Rattle.asm_laws_height.specs.Peaks.{last_function};
ghost use Rattle.asm_grammar_nodes.specs.Heights.{counted};
ghost use Rattle.asm_grammar_nodes.specs.Views.{function_view};
ghost use Rattle.asm_grammar_functions.specs.Totals.{functions_view, highest, one_height};

use asm_grammar_nodes::{FunctionTree, Height};
use sem_words::List;
use std::alloc::{AllocError, Global};

/// A function, and how high it is.
#[derive(Drop)]
pub struct TallFunction {
    pub tree: FunctionTree,
    pub height: Height,
    pub ghost high: { height.count ≡ counted (one_height (function_view tree)) },
}

/// Functions so far, how high the last one is, and how high the highest.
#[derive(Drop)]
pub struct TallFunctions {
    pub trees: List<FunctionTree>,
    pub last: Height,
    pub greatest: Height,
    pub ghost high_last: { last.count ≡ counted (last_function (functions_view (list_items trees))) },
    pub ghost high: { greatest.count ≡ counted (highest (functions_view (list_items trees))) },
}

impl TallFunctions {
    ghost use Rattle.std.specs.Prelude.{◌≡◌, [], ◌∷◌, ◌++◌, OnOk};
    ghost use Rattle.asm_grammar_functions.specs.Bodies.{functions_of, tall_function_view};

    pub fn new(alloc: Global) -> TallFunctions
        ensures { functions_of result ≡ [] }
    {
        TallFunctions {
            trees: List::new(alloc),
            last: Height::none(),
            greatest: Height::none(),
        }
    }

    /// Puts one more at the end.
    #[tactic(auto, using(crate::proofs::Totals::totals))]
    pub fn push(&mut self, function: TallFunction) -> Result<(), AllocError>
        ensures { OnOk result (functions_of self.new ≡ functions_of self.old ++ tall_function_view function ∷ []) }
    {
        let last = function.height;
        match self.trees.push(function.tree) {
            Ok(()) => {
                self.last = last;
                self.greatest = self.greatest.or(last);
                Ok(())
            }
            Err(_) => Err(AllocError),
        }
    }
}

/// Of so many nodes without parts.
pub fn leaves(count: usize) -> Height
    ensures { result.count ≡ min 1 count }
{
    if count == 0 {
        Height::none()
    } else {
        Height::leaf()
    }
}
