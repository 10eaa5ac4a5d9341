//! All nodes that are reached.

ghost use Rattle.std.specs.Prelude.{◌≡◌, ℕ, true, IfOk, length};
ghost use Rattle.graph_reach.specs.Graph.{IsReached, links_in};
ghost use Rattle.graph_reach.specs.Marked.{is_marked};

use crate::marks::Marks;
use sem_words::List;
use std::alloc::{AllocError, Global};

/// Of the nodes of a graph those that are reached: the first ones, and those that links lead to from reached ones. `links` has for
/// each node the numbers of the nodes that it links to; numbers past the last node mean none.
pub fn reached(
    alloc: Global,
    links: &[List<usize>],
    first: &[usize],
) -> Result<Vec<bool>, AllocError>
    ensures size { IfOk result (λ marked. length marked.items ≡ length links.now) }
    ensures sound { IfOk result (λ marked. (i : ℕ) → is_marked marked.items i ≡ true → IsReached (links_in links.now) first.now i) }
    ensures complete { IfOk result (λ marked. (i : ℕ) → IsReached (links_in links.now) first.now i → is_marked marked.items i ≡ true) }
{
    let marked = vec![in alloc; false; links.len()]?;
    let waiting = Vec::new(alloc);
    let mut marks = Marks { marked, waiting };
    marks.add_all(first)?;
    while let Some(node) = marks.next() {
        marks.add_all(links[node].as_slice())?;
    }
    Ok(marks.marked)
}
