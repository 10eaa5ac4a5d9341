//! Where a branch goes on.

/// Where a branch to a label goes on: a place of the body.
#[derive(Clone, Copy)]
pub enum Target {
    /// Past the end of the label's block.
    Past(usize),
    /// At the loop itself.
    Again(usize),
}
