//! Room for what is read.
ghost use Rattle.std.specs.Prelude.{◌≡◌, []};
ghost use Rattle.sem_words.specs.Lists.{list_items};

use sem_words::List;
use std::alloc::Global;

/// An empty list with room for so many items and no more, where there is memory for them: a list that grows takes room for four at once.
pub fn list_for<T>(alloc: Global, count: usize) -> List<T>
    ensures { list_items result ≡ [] }
{
    match List::with_capacity(alloc, count) {
        Ok(list) => list,
        Err(_) => List::new(alloc),
    }
}
