//! How high what ends with an expression is.

ghost use Rattle.std.specs.Prelude.{◌≡◌};
ghost use Rattle.asm_grammar_nodes.specs.Rises.{rise_view};
ghost use Rattle.asm_grammar_exprs.specs.Reach.{reach_view, outermost, closed, with_rise, capped_reach, capped_within};

use asm_grammar_nodes::Rise;

/// What some frames make of the height of an expression in them: up to the innermost that something else closes or,
/// where there is no such frame, all of them, so that it goes on with what is open round them.
#[derive(Clone, Copy, PartialEq, Eq)]
pub(crate) struct Reach {
    rise: Rise,
    onward: bool,
}

impl Reach {
    /// Of no frame.
    pub(crate) fn outermost() -> Reach
        ensures { reach_view result ≡ outermost }
    {
        Reach {
            rise: Rise::level(),
            onward: true,
        }
    }

    /// Of a frame that something else closes.
    pub(crate) fn closed() -> Reach
        ensures { reach_view result ≡ closed }
    {
        Reach {
            rise: Rise::level(),
            onward: false,
        }
    }

    /// Of a frame within these that ends with what is in it.
    pub(crate) fn with(self, inner: Rise) -> Reach
        ensures { reach_view result ≡ capped_reach (with_rise (reach_view self) (rise_view inner)) }
    {
        Reach {
            rise: self.rise.after(inner),
            onward: self.onward,
        }
    }

    /// The rise of the frames, where `outer` is open round them.
    pub(crate) fn within(self, outer: Rise) -> Rise
        ensures { rise_view result ≡ capped_within self.onward (rise_view outer) (rise_view self.rise) }
    {
        if self.onward {
            outer.after(self.rise)
        } else {
            self.rise
        }
    }
}
