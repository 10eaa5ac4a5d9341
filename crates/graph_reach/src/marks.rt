//! Nodes that are marked as reached.

ghost use Rattle.std.specs.Prelude.{◌≡◌, [], ◌∷◌, ◌++◌, IfOk, IfSome, IfNone};
ghost use Rattle.graph_reach.specs.Marked.{IsGrown};

use std::alloc::AllocError;

/// Which nodes are marked, and those of them whose links weren't followed yet.
#[derive(Drop)]
pub struct Marks {
    pub marked: Vec<bool>,
    pub waiting: Vec<usize>,
}

impl Marks {
    /// Marks a node, unless it is marked or there is none of this number.
    pub fn add(&mut self, node: usize) -> Result<(), AllocError>
        ensures { IfOk result (λ _. IsGrown self.old self.new (node ∷ [])) }
    {
        if node >= self.marked.len() {
            return Ok(());
        }
        if self.marked[node] {
            return Ok(());
        }
        self.waiting.push(node)?;
        self.marked[node] = true;
        Ok(())
    }

    /// Takes a node whose links weren't followed yet.
    pub fn next(&mut self) -> Option<usize>
        ensures some { IfSome result (λ node. self.old.waiting.items ≡ self.new.waiting.items ++ node ∷ []) }
        ensures none { IfNone result (self.old.waiting.items ≡ []) }
        ensures same { self.new.marked.items ≡ self.old.marked.items }
    {
        self.waiting.pop()
    }

    /// Marks each of these.
    pub fn add_all(&mut self, nodes: &[usize]) -> Result<(), AllocError>
        ensures { IfOk result (λ _. IsGrown self.old self.new nodes.now) }
    {
        for node in nodes {
            self.add(*node)?;
        }
        Ok(())
    }
}
