// Sums of counts that pass a limit.

ghost use Rattle.std.specs.Prelude.{◌≡◌, ◌<◌, ◌^◌};
ghost use Rattle.wasm_link_lang.specs.Refusal as plain;
ghost use Rattle.wasm_link_lang.specs.Reductions.{entries};

use wasm_link_bind::Exporting;

/// The first sum of both modules' counts that passes its limit: of types, of functions with one more, of globals, or of table entries.
pub fn sums_past(first: &Exporting<'_>, second: &Exporting<'_>) -> Option<usize>
    ensures { result ≡ plain.sums_past (record { first = first.now; second = second.now }) }
{
    let sizes = first.sizes();
    let others = second.sizes();
    let types = sizes.types + others.types;
    if types > 10_000 {
        return Some(types);
    }
    let functions = sizes.functions + others.functions + 1;
    if functions > 80_000 {
        return Some(functions);
    }
    let globals = sizes.globals + others.globals;
    if globals > 220_000 {
        return Some(globals);
    }
    let entries = table_entries(first) + table_entries(second);
    if entries > 1_048_576 {
        return Some(entries);
    }
    None
}

// How many entries the module's own table has.
fn table_entries(exporting: &Exporting<'_>) -> usize
    ensures value { result ≡ entries exporting.now }
    ensures few { result < 2 ^ 32 }
{
    match exporting.valid().module().tables.get(0) {
        Some(limits) => limits.min as usize,
        None => 0,
    }
}
