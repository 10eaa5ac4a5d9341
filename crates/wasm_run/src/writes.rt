// Whether bytes lie in a memory.

ghost use Rattle.std.specs.Prelude.{◌≡◌, ◌*◌, map};
ghost use Rattle.std.specs.List.{list_all};
ghost use Rattle.session_lang.specs.Script.{WritePlain, ReplyLinePlain};
ghost use Rattle.session_lang.specs.Views.{write_of, reply_of, reply_line_of};
ghost use Rattle.wasm_tree.specs.Views.{import_of, module_of};
ghost use Rattle.wasm_lang_valid.specs.Runnable;
ghost use Rattle.session_lang.specs.Fits as parts;
ghost use Rattle.wasm_lang_exec.specs.Fits;

use session_lang::{Reply, ReplyLine, WriteLine, bytes_are, lesser};
use wasm_lang::ImportKind;
use wasm_tree::{Import, Module};

/// The pages of a memory that is imported.
pub fn imported_pages(imports: &[Import<'_>]) -> Option<u32>
    ensures { result ≡ Runnable.imported_pages (map import_of imports.now) }
{
    for import in imports {
        if let ImportKind::Memory(limits) = import.kind {
            return Some(limits.min);
        }
    }
    None
}

/// The pages of the memory.
pub fn memory_pages(module: &Module<'_>) -> Option<u32>
    ensures { result ≡ Runnable.pages (module_of «module».now) }
{
    match imported_pages(module.imports.as_slice()) {
        Some(pages) => Some(pages),
        None => match module.memories.get(0) {
            Some(limits) => Some(limits.min),
            None => None,
        },
    }
}

fn lies_in(pages: Option<u32>, write: &WriteLine) -> bool
    ensures { result ≡ Fits.lies_in pages (write_of write.now) }
{
    let Some(pages) = pages else {
        return false;
    };
    bytes_are(write.bytes.as_bytes());
    let size = pages as u64 * 65536;
    let len = write.bytes.as_bytes().len() as u64;
    len <= size && write.at <= size - len
}

fn all_lie_in(pages: Option<u32>, writes: &[WriteLine]) -> bool
    ensures { result ≡ list_all (Fits.lies_in pages) (map write_of writes.now) }
{
    for write in writes {
        if !lies_in(pages, write) {
            return false;
        }
    }
    true
}

fn reply_lies_in(pages: Option<u32>, reply: &Reply) -> bool
    ensures { result ≡ list_all (Fits.lies_in pages) (parts.writes_of (reply_of reply.now)) }
{
    match reply {
        Reply::Give(_, writes) => all_lie_in(pages, writes.as_slice()),
        Reply::Throw => true,
    }
}

/// The first line of bytes that don't lie in a memory of so many pages.
#[tactic(auto, using(session_lang::proofs::FirstLines::earlier_lesser, session_lang::proofs::FirstLines::earlier_none))]
pub fn first_write(pages: Option<u32>, writes: &[WriteLine]) -> Option<u64>
    ensures { result ≡ parts.least (parts.lines_of (Fits.lies_in pages) (λ (w : WritePlain). w.line) (map write_of writes.now)) }
{
    let mut first = None;
    for write in writes {
        if !lies_in(pages, write) {
            first = lesser(write.line, first);
        }
    }
    first
}

/// The first line of a reply with bytes that don't.
#[tactic(auto, using(session_lang::proofs::FirstLines::earlier_lesser, session_lang::proofs::FirstLines::earlier_none))]
pub fn first_reply(pages: Option<u32>, replies: &[ReplyLine]) -> Option<u64>
    ensures { result ≡ parts.least (parts.lines_of (λ (r : ReplyLinePlain). list_all (Fits.lies_in pages) (parts.writes_of r.reply)) (λ r. r.line) (map reply_line_of replies.now)) }
{
    let mut first = None;
    for line in replies {
        if !reply_lies_in(pages, &line.reply) {
            first = lesser(line.line, first);
        }
    }
    first
}
