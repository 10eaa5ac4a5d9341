//! The names of imports and exports as the other language spells them.
ghost use Rattle.std.specs.Prelude.{◌≡◌, ◌++◌, IfOk, OnOk};
ghost use Rattle.std.specs.List.{list_all};
ghost use Rattle.hex.specs.Hex.{encode_lower};
ghost use Rattle.sem_words.specs.Lists.{text_bytes};
ghost use Rattle.session_lang.specs.Names.{is_name_start, is_name_part, starts_as_name, is_plain_name, import_name, export_name};

use sem_words::Text;
use std::alloc::{AllocError, Global};

fn is_name_start(b: u8) -> bool
    ensures { result ≡ is_name_start b }
{
    b.is_ascii_uppercase() || b.is_ascii_lowercase() || b == b'_' || b == b'$'
}

fn is_name_part(b: u8) -> bool
    ensures { result ≡ is_name_part b }
{
    is_name_start(b) || b.is_ascii_digit()
}

fn starts_as_name(name: &[u8]) -> bool
    ensures { result ≡ starts_as_name name.now }
{
    match name {
        [] => false,
        [first, ..] => is_name_start(*first),
    }
}

fn has_name_parts(name: &[u8]) -> bool
    ensures { result ≡ list_all is_name_part name.now }
{
    name.iter().all(|b| is_name_part(*b))
}

fn is_plain_name(name: &[u8]) -> bool
    ensures { result ≡ is_plain_name name.now }
{
    starts_as_name(name) && has_name_parts(name) && name != b"__proto__".as_slice()
}

// Puts two digits for each byte at the end of `name`.
fn push_hex(alloc: Global, name: &mut Vec<u8>, bytes: &[u8]) -> Result<(), AllocError>
    ensures { OnOk result (name.new.items ≡ name.old.items ++ encode_lower bytes.now) }
{
    let digits = hex::encode(alloc, bytes)?;
    name.extend_from_slice(digits.as_bytes())?;
    Ok(())
}

/// The name of an import: in WebAssembly of this module and field, in asm.js of the foreign member
/// that stands for it. A plain field of `env` is its own name, unless it begins with `$x`.
pub fn import_name(alloc: Global, module: &[u8], field: &[u8]) -> Result<Text, AllocError>
    ensures { IfOk result (λ name. text_bytes name ≡ import_name «module».now field.now) }
{
    if module == b"env".as_slice() && is_plain_name(field) && !field.starts_with(b"$x") {
        return Text::from_bytes(alloc, field);
    }
    let mut name = Vec::from_slice(alloc, b"$x")?;
    push_hex(alloc, &mut name, module)?;
    name.push(b'$')?;
    push_hex(alloc, &mut name, field)?;
    Text::from_bytes(alloc, name.as_slice())
}

/// The name of an export in asm.js. A plain name is its own, unless it begins with `$`.
pub fn export_name(alloc: Global, name: &[u8]) -> Result<Text, AllocError>
    ensures { IfOk result (λ exported. text_bytes exported ≡ export_name name.now) }
{
    if is_plain_name(name) && !name.starts_with(b"$") {
        return Text::from_bytes(alloc, name);
    }
    let mut exported = Vec::from_slice(alloc, b"$x")?;
    push_hex(alloc, &mut exported, name)?;
    Text::from_bytes(alloc, exported.as_slice())
}
