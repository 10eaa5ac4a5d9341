// Whether bytes lie in the heap.

ghost use Rattle.std.specs.Prelude.{◌≡◌, map};
ghost use Rattle.std.specs.List.{list_all};
ghost use Rattle.session_lang.specs.Script.{WritePlain, ReplyLinePlain};
ghost use Rattle.session_lang.specs.Views.{write_of, reply_of, reply_line_of};
ghost use Rattle.asm_tree.specs.Views.{module_view};
ghost use Rattle.session_lang.specs.Fits as parts;
ghost use Rattle.asm_lang_exec.specs.Fits;

use asm_validate::Checked;
use session_lang::{Reply, ReplyLine, WriteLine, bytes_are, lesser};

fn fits_write(checked: &Checked, heap_len: u32, write: &WriteLine) -> bool
    ensures { result ≡ Fits.fits_write (module_view checked.now) heap_len (write_of write.now) }
{
    bytes_are(write.bytes.as_bytes());
    let size = heap_len as u64;
    let len = write.bytes.as_bytes().len() as u64;
    checked.has_heap() && len <= size && write.at <= size - len
}

fn fit_writes(checked: &Checked, heap_len: u32, writes: &[WriteLine]) -> bool
    ensures { result ≡ list_all (Fits.fits_write (module_view checked.now) heap_len) (map write_of writes.now) }
{
    for write in writes {
        if !fits_write(checked, heap_len, write) {
            return false;
        }
    }
    true
}

fn fits_reply(checked: &Checked, heap_len: u32, reply: &Reply) -> bool
    ensures { result ≡ Fits.fits_reply (module_view checked.now) heap_len (reply_of reply.now) }
{
    match reply {
        Reply::Give(_, writes) => fit_writes(checked, heap_len, writes.as_slice()),
        Reply::Throw => true,
    }
}

/// The first line of bytes that don't lie in a heap of this length.
#[tactic(auto, using(session_lang::proofs::FirstLines::earlier_lesser, session_lang::proofs::FirstLines::earlier_none))]
pub fn first_write(checked: &Checked, heap_len: u32, writes: &[WriteLine]) -> Option<u64>
    ensures { result ≡ parts.least (parts.lines_of (Fits.fits_write (module_view checked.now) heap_len) (λ (w : WritePlain). w.line) (map write_of writes.now)) }
{
    let mut first = None;
    for write in writes {
        if !fits_write(checked, heap_len, write) {
            first = lesser(write.line, first);
        }
    }
    first
}

/// The first line of a reply with bytes that don't.
#[tactic(auto, using(session_lang::proofs::FirstLines::earlier_lesser, session_lang::proofs::FirstLines::earlier_none))]
pub fn first_reply(checked: &Checked, heap_len: u32, replies: &[ReplyLine]) -> Option<u64>
    ensures { result ≡ parts.least (parts.lines_of (λ (r : ReplyLinePlain). Fits.fits_reply (module_view checked.now) heap_len r.reply) (λ r. r.line) (map reply_line_of replies.now)) }
{
    let mut first = None;
    for line in replies {
        if !fits_reply(checked, heap_len, &line.reply) {
            first = lesser(line.line, first);
        }
    }
    first
}
