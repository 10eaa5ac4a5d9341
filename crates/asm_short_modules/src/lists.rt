//! Lists with one more item.

ghost use Rattle.std.specs.Prelude.{◌≡◌, [], ◌∷◌, ◌++◌, IfOk};
ghost use Rattle.sem_words.specs.Lists.{list_items};

use sem_words::List;
use std::alloc::AllocError;

/// The list with one more item at its end.
#[inline(never)]
pub(crate) fn pushed<T: Drop>(list: List<T>, item: T) -> Result<List<T>, AllocError>
    ensures { IfOk result (λ r. list_items r ≡ list_items list ++ item ∷ []) }
{
    let mut list = list;
    match list.push(item) {
        Ok(()) => Ok(list),
        Err(_) => Err(AllocError),
    }
}
