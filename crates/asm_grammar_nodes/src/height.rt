//! Heights of nodes, as far as the limit asks.

ghost use Rattle.std.specs.Prelude.{◌≡◌, ◌+◌, suc, max, ◌<◌, ◌↔◌, IsTrue};
ghost use Rattle.asm_grammar_nodes.specs.Heights.{counted};

/// The greatest height that a node may have.
pub const HEIGHT_LIMIT: u32 = 1000;

/// How high a node is; any height above the limit counts as one more than the limit.
#[derive(Clone, Copy, PartialEq, Eq)]
pub struct Height {
    count: u32,
}

impl Height {
    /// Of no node at all.
    pub fn none() -> Height
        ensures { result.count ≡ 0 }
    {
        Height { count: 0 }
    }

    /// Of a node without parts.
    pub fn leaf() -> Height
        ensures { result.count ≡ 1 }
    {
        Height { count: 1 }
    }

    fn up_to_limit(count: u32) -> Height
        ensures { result.count ≡ counted count }
    {
        Height {
            count: count.min(HEIGHT_LIMIT + 1),
        }
    }

    /// The same, where it may count further above the limit.
    pub(crate) fn limited(self) -> Height
        ensures { result.count ≡ counted self.count }
    {
        Height::up_to_limit(self.count)
    }

    /// Higher by so many steps.
    pub(crate) fn higher(self, steps: u32) -> Height
        ensures { result.count ≡ counted (self.count + steps) }
    {
        Height::up_to_limit(self.count.saturating_add(steps))
    }

    /// Of a node whose highest part has this height.
    pub fn above(self) -> Height
        ensures { result.count ≡ counted (suc self.count) }
    {
        if self.count > HEIGHT_LIMIT {
            Height {
                count: HEIGHT_LIMIT + 1,
            }
        } else {
            Height {
                count: self.count + 1,
            }
        }
    }

    /// The greater of the two.
    pub fn or(self, other: Height) -> Height
        ensures { result.count ≡ max self.count other.count }
    {
        if self.count < other.count {
            other
        } else {
            self
        }
    }

    /// Whether it is above the limit.
    pub fn is_over(self) -> bool
        ensures { IsTrue result ↔ (1000 < self.count) }
    {
        self.count > HEIGHT_LIMIT
    }
}
