//! The second reading of a text: its fields are judged and made, one after another.

ghost use Rattle.std.specs.Prelude.{◌≡◌, [], ◌∷◌, ◌++◌, IfOk, IfErr, IsTrue, OnOk, List, true, false};
ghost use Rattle.wasm_lang.specs.Modules.{FunctionType};
ghost use Rattle.wat_lang.specs.declared.parts.FieldKind.TheVariants as kinds;
ghost use Rattle.wat_lang.specs.declared.parts.Space.{Space};
ghost use Rattle.wat_lang.specs.Grammar.{Marked};
ghost use Rattle.wat_lang.specs.Names as names;
ghost use Rattle.wat_lang.specs.Rows as spec;
ghost use Rattle.wat_grammar.specs.Views.{mark_of};
ghost use Rattle.wat_laws_kept.specs.Heads.{heads_lead};
ghost use Rattle.wat_laws_kept.specs.FieldByField.{is_field};
ghost use Rattle.wat_marks.specs.Views.{IsMarkedAs, IsFaultOf, marked_of};
ghost use Rattle.wat_read_tokens.specs.Marks.{marks_of};
ghost use Rattle.wat_read_names.specs.Fields.{field_of};
ghost use Rattle.wat_read_fields.specs.Fit.{is_function};
ghost use Rattle.wat_read_fields.specs.Lists.{HasLists};
ghost use Rattle.wat_read_fields.specs.Contexts.{module_names, module_types};
ghost use Rattle.wat_read.specs.Making.{HasClosed, HasCode, HasMade, HasNone, HasParts};

use crate::functions::OpenFunction;
use crate::judging::FieldRows;
use key_hashes::KeyHashes;
use std::alloc::{AllocError, Global};
use wat_grammar::Mark;
use wat_lang::FieldKind;
use wat_marks::{MarkReader, MarkedToken, WatFault};
use wat_read_fields::{Context, Lists};
use wat_read_names::Field;
use wat_read_outline::Begun;
use wat_read_refusals::number_rows;

/// What was judged and made of a text as far as it was read.
#[derive(Drop)]
pub struct Making<'a> {
    pub rows: FieldRows,
    pub lists: Lists<'a>,
    /// The field that stands open.
    begun: Option<Begun>,
    /// The function that stands open, or the last one.
    function: OpenFunction<'a>,
    /// The tokens of another field that stands open.
    parts: Vec<MarkedToken<'a>>,
}

/// Lists a field that is no function, where no number of it is out of its range.
fn list_field<'a>(
    context: Context<'_, '_>,
    lists: &mut Lists<'a>,
    field: &Field<'_, 'a>,
    fits: bool,
) -> Result<(), AllocError>
    requires kind { is_function field.now.kind ≡ false }
    requires fits { IsTrue fits → spec.number_rows (marks_of field.now.parts.now) ≡ [] }
    ensures { (fs : List names.Field) → HasLists (module_names context.entry) (module_types context.entry) lists.old fs → fits ≡ true → OnOk result (HasLists (module_names context.entry) (module_types context.entry) lists.new (fs ++ field_of field.now ∷ [])) }
{
    if !fits {
        return Ok(());
    }
    lists.add(context, field)
}

/// Keeps a token of the field that stands open.
fn keep<'a>(parts: &mut Vec<MarkedToken<'a>>, token: &MarkedToken<'a>) -> Result<(), AllocError>
    ensures { OnOk result (marks_of parts.new.items ≡ marks_of parts.old.items ++ marked_of token.now ∷ []) }
{
    parts.push(*token)?;
    Ok(())
}

impl<'a> Making<'a> {
    fn new(alloc: Global, hashes: KeyHashes) -> Making<'a>
        ensures { (names_of : Space → names.Names) (types : List FunctionType) → HasMade names_of types result [] }
    {
        Making {
            rows: FieldRows::new(),
            lists: Lists::new(alloc),
            begun: None,
            function: OpenFunction::new(alloc, hashes),
            parts: Vec::new(alloc),
        }
    }

    /// Judges and makes a field that is no function.
    fn close_parts(&mut self, context: Context<'_, 'a>, begun: Begun) -> Result<(), AllocError>
        requires { is_function begun.kind ≡ false }
        ensures { (ks : List Marked) → HasParts (module_names context.entry) (module_types context.entry) self.old begun ks → OnOk result (HasClosed (module_names context.entry) (module_types context.entry) self.new ks) }
    {
        let field = Field {
            kind: begun.kind,
            at: begun.at,
            parts: self.parts.as_slice(),
        };
        let fits = self.rows.note(context, &field)?;
        list_field(context, &mut self.lists, &field, fits)?;
        self.parts.clear();
        Ok(())
    }

    /// Judges and makes a function.
    fn close_function(&mut self, context: Context<'_, 'a>, begun: Begun) -> Result<(), AllocError>
        requires { begun.kind ≡ kinds.Func }
        ensures { (ks : List Marked) → HasCode (module_names context.entry) (module_types context.entry) self.old begun ks → OnOk result (HasClosed (module_names context.entry) (module_types context.entry) self.new ks) }
    {
        self.function
            .end(context, &mut self.rows, &mut self.lists, begun)?;
        Ok(())
    }

    /// Tokens before the first field are of none.
    fn close_none(&mut self)
        ensures { (names_of : Space → names.Names) (types : List FunctionType) (ks : List Marked) → HasNone names_of types self.old ks → HasClosed names_of types self.new ks }
    {
        number_rows(&mut self.rows.numbers, self.parts.as_slice());
        self.parts.clear();
    }

    /// Judges and makes the field that stands open, if one does.
    fn close(&mut self, context: Context<'_, 'a>) -> Result<(), AllocError>
        ensures { (ks : List Marked) → HasMade (module_names context.entry) (module_types context.entry) self.old ks → OnOk result (HasClosed (module_names context.entry) (module_types context.entry) self.new ks) }
    {
        match self.begun {
            None => {
                self.close_none();
                Ok(())
            }
            Some(begun) => match begun.kind {
                FieldKind::Func => self.close_function(context, begun),
                _ => self.close_parts(context, begun),
            },
        }
    }

    /// A part of the function that stands open.
    fn add_code(
        &mut self,
        context: Context<'_, 'a>,
        begun: Begun,
        token: &MarkedToken<'a>,
    ) -> Result<(), AllocError>
        requires kind { begun.kind ≡ kinds.Func }
        requires part { is_field (mark_of token.now.mark) ≡ false }
        ensures code { (ks : List Marked) → HasCode (module_names context.entry) (module_types context.entry) self.old begun ks → heads_lead false (ks ++ marked_of token.now ∷ []) ≡ true
            → OnOk result (HasCode (module_names context.entry) (module_types context.entry) self.new begun (ks ++ marked_of token.now ∷ [])) }
        ensures stays { OnOk result (self.new.begun ≡ self.old.begun) }
    {
        self.function.add(context, &mut self.rows, begun, token)?;
        Ok(())
    }

    /// A part of the field that stands open.
    fn add_part(
        &mut self,
        context: Context<'_, 'a>,
        token: &MarkedToken<'a>,
    ) -> Result<(), AllocError>
        requires { is_field (mark_of token.now.mark) ≡ false }
        ensures { (ks : List Marked) → HasMade (module_names context.entry) (module_types context.entry) self.old ks → heads_lead false (ks ++ marked_of token.now ∷ []) ≡ true
            → OnOk result (HasMade (module_names context.entry) (module_types context.entry) self.new (ks ++ marked_of token.now ∷ [])) }
    {
        match self.begun {
            None => keep(&mut self.parts, token),
            Some(begun) => match begun.kind {
                FieldKind::Func => self.add_code(context, begun, token),
                _ => keep(&mut self.parts, token),
            },
        }
    }

    /// Looks at one more token.
    fn add(&mut self, context: Context<'_, 'a>, token: &MarkedToken<'a>) -> Result<(), AllocError>
        ensures { (ks : List Marked) → HasMade (module_names context.entry) (module_types context.entry) self.old ks → heads_lead false (ks ++ marked_of token.now ∷ []) ≡ true
            → OnOk result (HasMade (module_names context.entry) (module_types context.entry) self.new (ks ++ marked_of token.now ∷ [])) }
    {
        match token.mark {
            Mark::Field(kind) => {
                self.close(context)?;
                self.begun = Some(Begun {
                    kind,
                    at: token.token.at,
                });
                Ok(())
            }
            _ => self.add_part(context, token),
        }
    }
}

/// Judges and makes the fields of a text, by the names of its whole module.
pub fn making_of<'a>(context: Context<'_, 'a>, source: &'a [u8]) -> Result<Making<'a>, WatFault>
    ensures found { IfOk result (λ m. (ks : List Marked) × IsMarkedAs source.now ks × HasClosed (module_names context.entry) (module_types context.entry) m ks) }
    ensures fault { IfErr result (λ e. IsFaultOf source.now e) }
{
    let mut reader = MarkReader::new(context.alloc, source)?;
    let mut making = Making::new(context.alloc, context.hashes);
    while let Some(token) = reader.next()? {
        making.add(context, &token)?;
    }
    making.close(context)?;
    Ok(making)
}
