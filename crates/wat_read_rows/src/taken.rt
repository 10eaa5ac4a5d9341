//! Ids of parameters and locals that are bound again.

ghost use Rattle.std.specs.Prelude.{◌≡◌, OnOk};
ghost use Rattle.wat_lang.specs.Rows as spec;
ghost use Rattle.wat_read_names.specs.Fields.{field_of};
ghost use Rattle.wat_read_refusals.specs.Joined.{join};

use key_hashes::KeyHashes;
use std::alloc::{AllocError, Global};
use wat_lang::{FieldKind, Space};
use wat_read_names::Field;
use wat_read_refusals::{Least, taken_in};

fn has_locals(kind: FieldKind) -> bool
    ensures { result ≡ spec.has_locals kind }
{
    matches!(kind, FieldKind::Import | FieldKind::Func)
}

/// Notes the ids of parameters and locals that are bound again in a field.
pub fn local_taken(
    alloc: Global,
    hashes: KeyHashes,
    least: &mut Least,
    field: &Field<'_, '_>,
) -> Result<(), AllocError>
    ensures { OnOk result (least.new ≡ join least.old (spec.least (spec.local_spaces (field_of field.now)))) }
{
    if !has_locals(field.kind) {
        return Ok(());
    }
    taken_in(alloc, hashes, least, Space::Local, field.parts)?;
    Ok(())
}
