//! A stack of what is open round an expression.

ghost use Rattle.asm_grammar_exprs.specs.Reach.{Risen, Risen-prop, outermost, reach_view};

use crate::frame::Frame;
use crate::reach::Reach;
use asm_grammar_nodes::Rise;
use std::alloc::{AllocError, Global};

/// A frame, and the reach of those below it.
#[derive(Drop)]
pub(crate) struct Entry {
    frame: Frame,
    below: Reach,
}

/// All that is open round an expression, the innermost last, with its reach.
#[derive(Drop)]
pub(crate) struct Frames {
    entries: Vec<Entry>,
    reach: Reach,
    ghost risen: { Risen outermost entries.items (reach_view reach) } by { Risen-prop outermost entries.items (reach_view reach) },
}

impl Frames {
    ghost use Rattle.std.specs.Prelude.{◌≡◌, [], ◌∷◌, ◌++◌, IfOk, MatchOption};
    ghost use Rattle.asm_lang.specs.Trees.{ExprTree};
    ghost use Rattle.asm_lang.specs.Machine.{State};
    ghost use Rattle.asm_laws_height.specs.Rises.{Rise as RiseOf, ExprRise, capped_rise};
    ghost use Rattle.asm_grammar_nodes.specs.Rises.{rise_view};
    ghost use Rattle.asm_grammar_exprs.specs.Reach.{CappedRise};
    ghost use Rattle.asm_grammar_exprs.specs.Frames.{frames_list};
    ghost use Rattle.asm_grammar_exprs.specs.Views.{frames_view};

    /// Nothing is open.
    pub(crate) fn new(alloc: Global) -> Frames
        ensures { frames_list result ≡ [] }
    {
        Frames {
            entries: Vec::new(alloc),
            reach: Reach::outermost(),
        }
    }

    #[tactic(auto, using(crate::proofs::Rising::rising))]
    pub(crate) fn push(self, frame: Frame) -> Result<Frames, AllocError>
        ensures { IfOk result (λ r. frames_list r ≡ frames_list self ++ frame ∷ []) }
    {
        let Frames { mut entries, reach } = self;
        let below = reach;
        let reach = frame.reach(below);
        entries.push(Entry { frame, below })?;
        Ok(Frames { entries, reach })
    }

    /// The innermost frame, taken off.
    #[tactic(auto, using(crate::proofs::Rising::rising))]
    pub(crate) fn pop(&mut self) -> Option<Frame>
        ensures { MatchOption result (frames_list self.old ≡ []) (λ f. frames_list self.old ≡ frames_list self.new ++ f ∷ []) }
    {
        match self.entries.pop() {
            None => None,
            Some(entry) => {
                self.reach = entry.below;
                Some(entry.frame)
            }
        }
    }

    /// The rise of all frames, where `outer` is open round them.
    pub(crate) fn rise(&self, outer: Rise) -> Rise
        ensures { (k : ExprTree → State) (r : RiseOf) → capped_rise 1001 r ≡ rise_view outer → ExprRise r k → CappedRise (rise_view result) (frames_view self.now k) }
    {
        self.reach.within(outer)
    }
}
