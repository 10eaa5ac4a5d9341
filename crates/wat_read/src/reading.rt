//! The module that a text says, or why it says none.

ghost use Rattle.std.specs.Prelude.{◌≡◌, IfOk, IfErr, List as Seq, map};
ghost use Rattle.wasm_tree.specs.Views as views;
ghost use Rattle.wat_lang.specs.Grammar.{Marked};
ghost use Rattle.wat_lang.specs.Names as names;
ghost use Rattle.wat_lang.specs.Texts.{SaysModule};
ghost use Rattle.wat_marks.specs.Views.{IsFaultOf};
ghost use Rattle.wat_read_names.specs.Bound.{space_names};
ghost use Rattle.wat_read_refusals.specs.Joined.{join};
ghost use Rattle.wat_read_fields.specs.Lists.{HasLists};
ghost use Rattle.wat_read.specs.Making.{HasClosed};
ghost use Rattle.wat_read_outline.specs.Outlines.{IsOutlineOf};
ghost use Rattle.wat_read.specs.Said.{Says, IsFirstRow, module_by};
ghost use Rattle.wat_lang.specs.declared.parts.Space.{Space};

use crate::making::{Making, making_of};
use sem_words::List;
use std::alloc::Global;
use wasm_tree::{FuncType, Module};
use wat_marks::WatFault;
use wat_read_fields::{Context, Lists};
use wat_read_outline::{Outlined, outline_of};
use wat_read_refusals::Least;

/// The registers of all rows, in the order in which the rows are told.
#[derive(Drop)]
struct Registers {
    numbers: Least,
    utf8: Least,
    taken: Least,
    locals: Least,
    fields: Least,
    orders: Least,
    entries: Least,
}

impl Registers {
    /// The first refusal of all.
    fn first(self) -> Least
        ensures { result ≡ join self.numbers (join self.utf8 (join self.taken (join self.locals (join self.fields (join self.orders self.entries))))) }
    {
        let mut least = self.numbers;
        least.join(self.utf8);
        least.join(self.taken);
        least.join(self.locals);
        least.join(self.fields);
        least.join(self.orders);
        least.join(self.entries);
        least
    }
}

fn module_of<'a>(types: Vec<FuncType>, lists: Lists<'a>) -> Module<'a>
    ensures { (names_of : Space → names.Names) (fs : Seq names.Field) → HasLists names_of (names.types_of fs) lists.entry fs → map views.type_of types.items ≡ names.types_of fs
        → views.module_of result ≡ module_by names_of fs }
{
    let Lists {
        described,
        listed,
        functions,
    } = lists;
    Module {
        types: List::from_vec(types),
        imports: described.imports,
        functions: functions.types,
        tables: described.tables,
        memories: described.memories,
        globals: described.globals,
        exports: listed.exports,
        start: listed.start,
        elements: listed.elements,
        bodies: functions.bodies,
        segments: listed.segments,
    }
}

/// The module, or the first refusal of what was judged in both readings.
fn judged<'a>(outlined: Outlined<'a>, made: Making<'a>) -> Result<Module<'a>, WatFault>
    ensures found { (ks : Seq Marked) → IsOutlineOf outlined.entry ks → HasClosed (space_names outlined.entry.names.spaces) (map views.type_of outlined.entry.names.types.items) made.entry ks
        → IfOk result (λ m. Says ks (views.module_of m)) }
    ensures fault { (ks : Seq Marked) → IsOutlineOf outlined.entry ks → HasClosed (space_names outlined.entry.names.spaces) (map views.type_of outlined.entry.names.types.items) made.entry ks
        → IfErr result (λ e. IsFirstRow ks e) }
{
    let registers = Registers {
        numbers: made.rows.numbers,
        utf8: outlined.utf8,
        taken: outlined.taken,
        locals: made.rows.locals,
        fields: made.rows.fields,
        orders: outlined.orders,
        entries: outlined.entries,
    };
    match registers.first().found() {
        Some(refusal) => Err(WatFault::Refused {
            row: refusal.row,
            at: refusal.at,
        }),
        None => Ok(module_of(outlined.names.types, made.lists)),
    }
}

/// The module that a text says, or the first row that refuses it.
pub fn module<'a>(alloc: Global, source: &'a [u8]) -> Result<Module<'a>, WatFault>
    ensures found { IfOk result (λ m. SaysModule source.now (views.module_of m)) }
    ensures fault { IfErr result (λ e. IsFaultOf source.now e) }
{
    let outlined = outline_of(alloc, source)?;
    let context = Context {
        alloc,
        hashes: outlined.hashes,
        spaces: &outlined.names.spaces,
        types: outlined.names.types.as_slice(),
    };
    let made = making_of(context, source)?;
    judged(outlined, made)
}
