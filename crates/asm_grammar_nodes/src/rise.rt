//! How high what ends with a node is, as far as the limit asks.

ghost use Rattle.std.specs.Prelude.{◌≡◌};
ghost use Rattle.asm_laws_height.specs.Rises.{level, one_more, rise_after, risen, capped_rise};
ghost use Rattle.asm_grammar_nodes.specs.Heights.{counted};
ghost use Rattle.asm_grammar_nodes.specs.Rises.{rise_view};

use crate::height::{HEIGHT_LIMIT, Height};

/// Of all that is open round a node: the highest node that ends with one of height h is as high as the greater of
/// `floor` and `h + steps`. Both are counted up to one above the limit.
#[derive(Clone, Copy, PartialEq, Eq)]
pub struct Rise {
    floor: Height,
    steps: u32,
}

impl Rise {
    /// Where nothing ends but the node.
    pub fn level() -> Rise
        ensures { rise_view result ≡ level }
    {
        Rise {
            floor: Height::none(),
            steps: 0,
        }
    }

    /// Of a node whose other parts are at most this high.
    pub fn one_more(parts: Height) -> Rise
        ensures { rise_view result ≡ capped_rise 1001 (one_more parts.count) }
    {
        Rise {
            floor: parts.above(),
            steps: 1,
        }
    }

    /// Of a node that is this high without its one open part.
    pub(crate) fn from_floor(floor: Height) -> Rise
        ensures { rise_view result ≡ record { floor = floor.count; steps = 1 } }
    {
        Rise { floor, steps: 1 }
    }

    /// Of this round the inner one.
    pub fn after(self, inner: Rise) -> Rise
        ensures { rise_view result ≡ capped_rise 1001 (rise_after (rise_view self) (rise_view inner)) }
    {
        Rise {
            floor: self.risen(inner.floor),
            steps: inner.steps.saturating_add(self.steps).min(HEIGHT_LIMIT + 1),
        }
    }

    /// How high the highest node is that ends with one of this height.
    pub fn risen(self, height: Height) -> Height
        ensures { result.count ≡ counted (risen (rise_view self) height.count) }
    {
        self.floor.or(height.higher(self.steps)).limited()
    }
}
