//! Lists with one more item, and with one less.

ghost use Rattle.std.specs.Prelude.{◌≡◌, [], ◌∷◌, ◌++◌, IfNone, IfOk, IfSome};
ghost use Rattle.sem_words.specs.Lists.{list_items};

use sem_words::List;
use std::alloc::AllocError;

/// From how much room on a list gives back what is free while its items are taken: each time is a call of the allocator.
const LONG: usize = 1024;

/// The list with one more item at its end.
#[inline(never)]
pub(crate) fn pushed<T: Drop>(list: List<T>, item: T) -> Result<List<T>, AllocError>
    ensures { IfOk result (λ r. list_items r ≡ list_items list ++ item ∷ []) }
{
    let mut list = list;
    match list.push(item) {
        Ok(()) => Ok(list),
        Err(_) => Err(AllocError),
    }
}

/// Takes the last item. Where half of the room of a long list is free, it is given back first.
pub(crate) fn last_taken<T>(left: &mut Vec<T>) -> Option<T>
    ensures some { IfSome result (λ item. left.old.items ≡ left.new.items ++ item ∷ []) }
    ensures none { IfNone result (left.old.items ≡ []) }
{
    if left.capacity() >= LONG && left.len() <= left.capacity() / 2 {
        left.shrink_to_fit();
    }
    left.pop()
}
