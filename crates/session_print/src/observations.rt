//! What is seen of a whole run.

ghost use Rattle.std.specs.Prelude.{◌≡◌, ◌++◌, IfOk, OnOk};
ghost use Rattle.session_replies.specs.Views.{seen_of};
ghost use Rattle.script_lang.specs.Texts as spec;

use crate::heap::push_heap;
use crate::lines::{push_end, push_events};
use session_replies::Seen;
use std::alloc::{AllocError, Global};

/// The end with the heap's bytes, if there is one.
fn push_ending(alloc: Global, out: &mut Vec<u8>, seen: &Seen) -> Result<(), AllocError>
    ensures { OnOk result (out.new.items ≡ out.old.items ++ spec.ending_lines (seen_of seen.now).end (seen_of seen.now).heap) }
{
    match &seen.end {
        Some(end) => {
            push_end(out, end)?;
            push_heap(alloc, out, seen.heap.bytes())
        }
        None => out.extend_from_slice(b"still running\n"),
    }
}

/// The text of a run: a line for each event, then its end and a line for each sixteen bytes of the heap that aren't
/// all 0, or that it is still running.
pub fn observation_text(alloc: Global, seen: &Seen) -> Result<Vec<u8>, AllocError>
    ensures { IfOk result (λ text. text.items ≡ spec.observation_text (seen_of seen.now)) }
{
    let mut out = Vec::new(alloc);
    push_events(&mut out, seen.events.as_slice())?;
    push_ending(alloc, &mut out, seen)?;
    Ok(out)
}
