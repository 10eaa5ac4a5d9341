//! Byte writes of a script, made in a heap.
ghost use Rattle.std.specs.Prelude.{◌≡◌, map};
ghost use Rattle.heap_lang.specs.Heap.{with_run};
ghost use Rattle.sem_words.specs.Lists.{text_bytes};
ghost use Rattle.session_lang.specs.Views.{write_of};
ghost use Rattle.session_replies.specs.Puts.{after_puts};

use heap_views::Heap;
use session_lang::WriteLine;

// A place of 2^32 or more is past the end of every heap.
#[tactic(auto, using(crate::proofs::Far::far_write))]
fn put_write(heap: &mut Heap, write: &WriteLine)
    ensures { heap.new ≡ with_run write.now.at (text_bytes write.now.bytes) heap.old }
{
    let _bytes = heap.bytes();
    if write.at < 1 << 32 {
        let _ = heap.put(write.at as u32, write.bytes.as_bytes());
    }
}

/// Makes the writes in order. Each that passes the end of the heap changes nothing. It takes no
/// memory.
pub fn put_writes(heap: &mut Heap, writes: &[WriteLine])
    ensures { heap.new ≡ after_puts (map write_of writes.now) heap.old }
{
    for write in writes {
        put_write(heap, write);
    }
}
