//! What fields are judged by: the registers of their refusals.

ghost use Rattle.std.specs.Prelude.{◌≡◌, ◌↔◌, [], ◌∷◌, ◌++◌, IfOk, OnOk, IsTrue, List, None, false};
ghost use Rattle.wat_lang.specs.Grammar.{Marked};
ghost use Rattle.wat_lang.specs.Names as names;
ghost use Rattle.wat_lang.specs.Rows as spec;
ghost use Rattle.wat_read_names.specs.Fields.{field_of};
ghost use Rattle.wat_read_tokens.specs.Marks.{marks_of};
ghost use Rattle.wat_read_refusals.specs.Joined.{join};
ghost use Rattle.wat_read_rows.specs.Heads.{rows_by_kind};
ghost use Rattle.wat_read_fields.specs.Fit.{is_function};
ghost use Rattle.wat_read.specs.Judged.{HasRows};
ghost use Rattle.wat_read_fields.specs.Contexts.{module_names, module_types};

use std::alloc::AllocError;
use wat_read_fields::Context;
use wat_read_labels::Labels;
use wat_read_names::{Field, Ids};
use wat_read_refusals::{Least, number_rows};
use wat_read_rows::{local_taken, rows_by_kind, use_rows};

/// The first refusals of fields, by the kind of their rows: numbers, ids of locals that are bound again, and all others.
#[derive(Drop)]
pub struct FieldRows {
    pub numbers: Least,
    pub locals: Least,
    pub fields: Least,
}

impl FieldRows {
    pub fn new() -> FieldRows
        ensures numbers { result.numbers ≡ None }
        ensures locals { result.locals ≡ None }
        ensures fields { result.fields ≡ None }
    {
        FieldRows {
            numbers: Least::new(),
            locals: Least::new(),
            fields: Least::new(),
        }
    }

    /// Notes the rows of a field that have nothing to do with its uses and its numbers.
    pub fn note_kind(
        &mut self,
        context: Context<'_, '_>,
        field: &Field<'_, '_>,
    ) -> Result<(), AllocError>
        ensures numbers { OnOk result (self.new.numbers ≡ self.old.numbers) }
        ensures locals { OnOk result (self.new.locals ≡ join self.old.locals (spec.least (spec.local_spaces (field_of field.now)))) }
        ensures fields { OnOk result (self.new.fields ≡ join self.old.fields (spec.least (rows_by_kind (module_names context.entry) (module_types context.entry) (field_of field.now)))) }
    {
        rows_by_kind(
            context.alloc,
            &mut self.fields,
            context.spaces,
            context.types,
            field,
        )?;
        local_taken(context.alloc, context.hashes, &mut self.locals, field)
    }

    /// Notes the uses in a field without locals.
    fn note_uses(
        &mut self,
        context: Context<'_, '_>,
        field: &Field<'_, '_>,
    ) -> Result<(), AllocError>
        ensures numbers { OnOk result (self.new.numbers ≡ self.old.numbers) }
        ensures locals { OnOk result (self.new.locals ≡ self.old.locals) }
        ensures fields { OnOk result (self.new.fields ≡ join self.old.fields (spec.least (spec.use_rows (names.names_at (module_names context.entry) []) [] (marks_of field.now.parts.now)))) }
    {
        let locals = Ids::unnamed(context.alloc, context.hashes, 0);
        let mut labels = Labels::new(context.alloc, context.hashes);
        use_rows(
            &mut self.fields,
            context.spaces,
            &locals,
            &mut labels,
            field.parts,
        )
    }

    /// Notes the rows of a field that is no function, and says whether no number of it is out of its range.
    pub fn note(
        &mut self,
        context: Context<'_, '_>,
        field: &Field<'_, '_>,
    ) -> Result<bool, AllocError>
        requires { is_function field.now.kind ≡ false }
        ensures noted { (ks : List Marked) (fs : List names.Field) → HasRows (module_names context.entry) (module_types context.entry) self.old ks fs []
            → OnOk result (HasRows (module_names context.entry) (module_types context.entry) self.new (ks ++ marks_of field.now.parts.now) (fs ++ field_of field.now ∷ []) []) }
        ensures fits { IfOk result (λ b. IsTrue b ↔ (spec.number_rows (marks_of field.now.parts.now) ≡ [])) }
    {
        let fits = number_rows(&mut self.numbers, field.parts);
        self.note_uses(context, field)?;
        self.note_kind(context, field)?;
        Ok(fits)
    }
}
