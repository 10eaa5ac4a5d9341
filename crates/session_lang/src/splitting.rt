//! The script of a WebAssembly session in the calling form of its translation to asm.js.
ghost use Rattle.std.specs.Prelude.{◌≡◌, ◌∷◌, ◌++◌, IfOk, OnOk, map, option_map};
ghost use Rattle.std.specs.List.{flat_map};
ghost use Rattle.sem_words.specs.Lists.{text_bytes, list_items};
ghost use Rattle.session_lang.specs.CallingForms.{to_word64, split_arg, split_args, split_call_by, split_call, init_call, split};
ghost use Rattle.session_lang.specs.ShapeTable.{shape_at, HasShapes};
ghost use Rattle.session_lang.specs.Views.{global_of, write_of, call_of, reply_of, reply_line_of, script_of, shape_of};

use crate::naming::export_name;
use crate::script::{CallLine, CallShape, GlobalLine, Reply, ReplyLine, Script, WriteLine};
use sem_words::{List, Text};
use std::alloc::{AllocError, Global};
use std::collections::HashMap;

fn copy_text(alloc: Global, text: &Text) -> Result<Text, AllocError>
    ensures { IfOk result (λ copy. text_bytes copy ≡ text_bytes text.now) }
{
    Text::from_bytes(alloc, text.as_bytes())
}

fn copy_global(alloc: Global, global: &GlobalLine) -> Result<GlobalLine, AllocError>
    ensures { IfOk result (λ copy. global_of copy ≡ global_of global.now) }
{
    Ok(GlobalLine {
        name: copy_text(alloc, &global.name)?,
        value: global.value,
        line: global.line,
    })
}

fn copy_globals(alloc: Global, globals: &[GlobalLine]) -> Result<List<GlobalLine>, AllocError>
    ensures { IfOk result (λ copy. map global_of (list_items copy) ≡ map global_of globals.now) }
{
    let mut copies = Vec::new(alloc);
    for global in globals {
        copies.push(copy_global(alloc, global)?)?;
    }
    Ok(List::from_vec(copies))
}

fn copy_write(alloc: Global, write: &WriteLine) -> Result<WriteLine, AllocError>
    ensures { IfOk result (λ copy. write_of copy ≡ write_of write.now) }
{
    Ok(WriteLine {
        at: write.at,
        bytes: copy_text(alloc, &write.bytes)?,
        line: write.line,
    })
}

fn copy_writes(alloc: Global, writes: &[WriteLine]) -> Result<List<WriteLine>, AllocError>
    ensures { IfOk result (λ copy. map write_of (list_items copy) ≡ map write_of writes.now) }
{
    let mut copies = Vec::new(alloc);
    for write in writes {
        copies.push(copy_write(alloc, write)?)?;
    }
    Ok(List::from_vec(copies))
}

fn copy_reply(alloc: Global, reply: &Reply) -> Result<Reply, AllocError>
    ensures { IfOk result (λ copy. reply_of copy ≡ reply_of reply.now) }
{
    match reply {
        Reply::Give(word, writes) => {
            let writes = copy_writes(alloc, writes.as_slice())?;
            Ok(Reply::Give(*word, writes))
        }
        Reply::Throw => Ok(Reply::Throw),
    }
}

fn copy_reply_line(alloc: Global, reply: &ReplyLine) -> Result<ReplyLine, AllocError>
    ensures { IfOk result (λ copy. reply_line_of copy ≡ reply_line_of reply.now) }
{
    Ok(ReplyLine {
        reply: copy_reply(alloc, &reply.reply)?,
        line: reply.line,
    })
}

fn copy_replies(alloc: Global, replies: &[ReplyLine]) -> Result<List<ReplyLine>, AllocError>
    ensures { IfOk result (λ copy. map reply_line_of (list_items copy) ≡ map reply_line_of replies.now) }
{
    let mut copies = Vec::new(alloc);
    for reply in replies {
        copies.push(copy_reply_line(alloc, reply)?)?;
    }
    Ok(List::from_vec(copies))
}

// The number modulo 2^64.
fn to_word64(arg: i128) -> u64
    ensures { result ≡ to_word64 arg }
{
    arg.rem_euclid(1 << 64) as u64
}

fn push_arg(words: &mut Vec<i128>, wide: bool, arg: i128) -> Result<(), AllocError>
    ensures { OnOk result (words.new.items ≡ words.old.items ++ split_arg wide arg) }
{
    if wide {
        let word = to_word64(arg);
        words.push(i128::from(word % (1 << 32)))?;
        words.push(i128::from(word / (1 << 32)))?;
    } else {
        words.push(arg)?;
    }
    Ok(())
}

fn split_args(alloc: Global, wide: &[bool], args: &[i128]) -> Result<List<i128>, AllocError>
    ensures { IfOk result (λ words. list_items words ≡ split_args wide.now args.now) }
{
    let mut words = Vec::new(alloc);
    for i in 0..args.len() {
        push_arg(&mut words, i < wide.len() && wide[i], args[i])?;
    }
    Ok(List::from_vec(words))
}

// The shape of each name. Of two shapes with one key the first counts.
fn shape_table<'a>(
    alloc: Global,
    shapes: &'a [CallShape],
) -> Result<HashMap<&'a [u8], &'a CallShape>, AllocError>
    ensures { IfOk result (λ table. HasShapes table (map shape_of shapes.now)) }
{
    let mut table = HashMap::new(alloc);
    for i in (0..shapes.len()).rev() {
        let shape = &shapes[i];
        table.insert(shape.key.as_bytes(), shape)?;
    }
    Ok(table)
}

// Puts the call in its new form at the end, and after it the call of `$hi` where its result is
// wide.
fn push_split_call(
    alloc: Global,
    calls: &mut Vec<CallLine>,
    shape: &CallShape,
    call: &CallLine,
) -> Result<(), AllocError>
    ensures { OnOk result
        (map call_of calls.new.items
        ≡ map call_of calls.old.items
        ++ split_call_by (Some (shape_of shape.now)) (call_of call.now)) }
{
    let line = call.line;
    calls.push(CallLine {
        name: export_name(alloc, call.name.as_bytes())?,
        args: split_args(alloc, shape.wide.as_slice(), call.args.as_slice())?,
        line,
    })?;
    if shape.wide_result {
        calls.push(CallLine {
            name: Text::from_bytes(alloc, b"$hi")?,
            args: List::new(alloc),
            line,
        })?;
    }
    Ok(())
}

fn push_renamed_call(
    alloc: Global,
    calls: &mut Vec<CallLine>,
    call: &CallLine,
) -> Result<(), AllocError>
    ensures { OnOk result
        (map call_of calls.new.items
        ≡ map call_of calls.old.items ++ split_call_by None (call_of call.now)) }
{
    calls.push(CallLine {
        name: export_name(alloc, call.name.as_bytes())?,
        args: split_args(alloc, &[], call.args.as_slice())?,
        line: call.line,
    })?;
    Ok(())
}

fn push_call(
    alloc: Global,
    calls: &mut Vec<CallLine>,
    shape: Option<&CallShape>,
    call: &CallLine,
) -> Result<(), AllocError>
    ensures { OnOk result
        (map call_of calls.new.items
        ≡ map call_of calls.old.items
        ++ split_call_by (option_map (λ s. shape_of s.now) shape.entry) (call_of call.now)) }
{
    match shape {
        Some(shape) => push_split_call(alloc, calls, shape, call),
        None => push_renamed_call(alloc, calls, call),
    }
}

fn find_shape<'a>(table: &HashMap<&'a [u8], &'a CallShape>, name: &[u8]) -> Option<&'a CallShape>
    ensures { option_map (λ s. shape_of s.now) result ≡ shape_at table.now name.now }
{
    table.get(name).copied()
}

fn init_line(alloc: Global) -> Result<CallLine, AllocError>
    ensures { IfOk result (λ line. call_of line ≡ init_call) }
{
    Ok(CallLine {
        name: Text::from_bytes(alloc, b"$init")?,
        args: List::new(alloc),
        line: 0,
    })
}

fn split_calls(
    alloc: Global,
    calls: &[CallLine],
    shapes: &[CallShape],
) -> Result<List<CallLine>, AllocError>
    ensures { IfOk result
        (λ lines. map call_of (list_items lines)
        ≡ init_call ∷ flat_map (split_call (map shape_of shapes.now)) (map call_of calls.now)) }
{
    let table = shape_table(alloc, shapes)?;
    let mut lines = Vec::new(alloc);
    lines.push(init_line(alloc)?)?;
    for call in calls {
        let shape = find_shape(&table, call.name.as_bytes());
        push_call(alloc, &mut lines, shape, call)?;
    }
    Ok(List::from_vec(lines))
}

/// The script in the calling form of the translation to asm.js. It begins with a call of `$init`.
/// Each call follows under its name as `export_name` gives it, with each 64-bit argument as its
/// low and its high word, and directly after one with a 64-bit result comes a call of `$hi`. The
/// rest stays as it is. A shape says which arguments and results are 64-bit words; of two with
/// one key the first counts.
pub fn split_script(
    alloc: Global,
    script: &Script,
    shapes: &[CallShape],
) -> Result<Script, AllocError>
    ensures { IfOk result
        (λ target. script_of target ≡ split (map shape_of shapes.now) (script_of script.now)) }
{
    Ok(Script {
        globals: copy_globals(alloc, script.globals.as_slice())?,
        writes: copy_writes(alloc, script.writes.as_slice())?,
        calls: split_calls(alloc, script.calls.as_slice(), shapes)?,
        replies: copy_replies(alloc, script.replies.as_slice())?,
    })
}
