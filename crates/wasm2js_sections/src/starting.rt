//! The function that begins a session: the segments of the memory, and then the start function.
ghost use Rattle.std.specs.Prelude.{◌≡◌, ◌++◌, [], List, map, IfOk};
ghost use Rattle.std.specs.List.{flat_map};
ghost use Rattle.wasm_tree.specs.Views.{instr_of, segment_of};
ghost use Rattle.wasm_lang_valid.specs.Profile.{constant_offset, or_zero};
ghost use Rattle.asm_tree.specs.Views.{function_view};
ghost use Rattle.wasm2js_translation.specs.Modules as modules;
ghost use Rattle.wasm2js_build.specs.Blocks.{statements_of};

use crate::segments::set_run;
use asm_tree::Function;
use sem_words::List;
use std::alloc::{AllocError, Global};
use wasm_tree::{Instr, Segment};
use wasm_validate::Valid;
use wasm2js_build::{Block, function};
use wasm2js_nodes::{Fixed, Name, Numbered, call, plainly};

/// `$init` of what a valid module is translated to, with a statement for each four bytes of the segments, or fewer.
pub fn init_function(alloc: Global, valid: &Valid<'_>) -> Result<Function, AllocError>
    ensures { IfOk result (λ f. function_view f ≡ modules.init_function valid.now) }
{
    let module = valid.module();
    let mut body = Block::new(alloc);
    set_segments(alloc, &mut body, module.segments.as_slice())?;
    call_start(alloc, &mut body, module.start)?;
    function(alloc, Name::Always(Fixed::Init), &[], &[], body)
}

fn set_segments(alloc: Global, body: &mut Block, segments: &[Segment<'_>]) -> Result<(), AllocError>
    ensures { IfOk result (λ _. statements_of body.new ≡ statements_of body.old ++ flat_map modules.segment_stmts (map segment_of segments.now)) }
{
    for segment in segments {
        set_segment(alloc, body, segment)?;
    }
    Ok(())
}

fn set_segment(alloc: Global, body: &mut Block, segment: &Segment<'_>) -> Result<(), AllocError>
    ensures { IfOk result (λ _. statements_of body.new ≡ statements_of body.old ++ modules.segment_stmts (segment_of segment.now)) }
{
    let place = place_of(segment.offset.as_slice());
    set_run(alloc, body, place, segment.bytes.as_bytes())
}

// The offset where it is a constant, else 0.
fn place_of(offset: &[Instr]) -> u32
    ensures { result ≡ or_zero (constant_offset (map instr_of offset.now)) }
{
    match offset {
        [Instr::Const32(word), ..] => *word,
        _ => 0,
    }
}

fn call_start(alloc: Global, body: &mut Block, start: Option<u32>) -> Result<(), AllocError>
    ensures { IfOk result (λ _. statements_of body.new ≡ statements_of body.old ++ modules.start_stmts start) }
{
    let Some(start) = start else {
        return Ok(());
    };
    let name = Name::Counted(Numbered::Function, u64::from(start));
    let call = call(alloc, name, List::new(alloc))?;
    body.push(plainly(call))
}
