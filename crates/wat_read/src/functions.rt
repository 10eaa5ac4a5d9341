//! Functions, whose code is read one instruction at a time.

ghost use Rattle.std.specs.Prelude.{◌≡◌, ◌⊎◌, ◌↔◌, ◌&&◌, [], ◌∷◌, ◌++◌, IfOk, OnOk, IsTrue, List, map, drop, true, false, if◌then◌else◌};
ghost use Rattle.wasm_tree.specs.Views as views;
ghost use Rattle.wat_lang.specs.declared.parts.FieldKind.TheVariants as kinds;
ghost use Rattle.wat_lang.specs.Grammar.{Marked};
ghost use Rattle.wat_lang.specs.Names as names;
ghost use Rattle.wat_lang.specs.Modules as spec;
ghost use Rattle.wat_lang.specs.Rows.{locals_of, number_rows, use_rows};
ghost use Rattle.wat_grammar.specs.Views.{mark_of};
ghost use Rattle.wat_laws_kept.specs.Heads.{is_head, heads};
ghost use Rattle.wat_laws_kept.specs.FieldByField.{with_part};
ghost use Rattle.wat_laws_kept.specs.Groups.{begins_instruction, labels_behind, no_instruction};
ghost use Rattle.wat_marks.specs.Views.{marked_of};
ghost use Rattle.wat_read_tokens.specs.Marks.{marks_of, only};
ghost use Rattle.wat_lang.specs.declared.parts.Space.{Space};
ghost use Rattle.wasm_lang.specs.Modules.{FunctionType};
ghost use Rattle.wat_read_names.specs.Fields.{field_of};
ghost use Rattle.wat_read_fields.specs.Lists.{HasLists};
ghost use Rattle.wat_read.specs.Judged.{HasRows};
ghost use Rattle.wat_read_fields.specs.Contexts.{module_names, module_types};
ghost use Rattle.wat_read.specs.Making.{HasFunction, HasMadeCode, HasWholeCode, IsEmpty, IsJudged, IsWhole, IsWholeOf};

use crate::judging::FieldRows;
use key_hashes::KeyHashes;
use std::alloc::{AllocError, Global};
use std::mem;
use wasm_tree::Instr;
use wat_grammar::Mark;
use wat_lang::FieldKind;
use wat_marks::MarkedToken;
use wat_read_bodies::push_instr;
use wat_read_fields::{Context, Lists};
use wat_read_labels::Labels;
use wat_read_names::{Field, Ids};
use wat_read_outline::{Begun, is_head};
use wat_read_refusals::{Least, number_rows};
use wat_read_rows::{locals_of, use_rows};

/// What is made of a function's code.
#[derive(Drop)]
pub struct MadeCode<'a> {
    pub labels: Labels<'a>,
    pub code: Vec<Instr>,
    /// Whether no number of it is out of its range.
    pub fits: bool,
}

/// A function that stands open. Its code is made as far as it is whole: an instruction stays in `group`, with the tokens behind it,
/// until the next begins.
#[derive(Drop)]
pub struct OpenFunction<'a> {
    pub heads: Vec<MarkedToken<'a>>,
    pub group: Vec<MarkedToken<'a>>,
    /// Whether its code has begun: all of its heads are there.
    pub in_code: bool,
    pub locals: Ids<'a>,
    pub made: MadeCode<'a>,
}

fn is_instruction(mark: Mark) -> bool
    ensures { result ≡ spec.is_instruction (mark_of mark) }
{
    matches!(mark, Mark::Instruction(_))
}

/// Whether no number is out of its range.
fn all_fit(parts: &[MarkedToken<'_>]) -> bool
    ensures { IsTrue result ↔ (number_rows (marks_of parts.now) ≡ []) }
{
    let mut least = Least::new();
    number_rows(&mut least, parts)
}

/// Makes the instruction of a group, if it begins with one.
fn push_group(
    context: Context<'_, '_>,
    code: &mut Vec<Instr>,
    locals: &Ids<'_>,
    labels: &Labels<'_>,
    group: &[MarkedToken<'_>],
) -> Result<(), AllocError>
    requires { number_rows (marks_of group.now) ≡ [] }
    ensures { no_instruction (drop 1 (marks_of group.now)) ≡ true → OnOk result (map views.instr_of code.new.items ≡ map views.instr_of code.old.items
        ++ spec.instructions_in (names.names_at (module_names context.entry) locals.now) labels.now (marks_of group.now)) }
{
    match group {
        [] => Ok(()),
        [first, behind @ ..] => push_instr(
            context.alloc,
            code,
            context.spaces,
            locals,
            labels,
            first.mark,
            behind,
        ),
    }
}

/// Makes the instruction of a group, where no number of it is out of its range.
fn make_group(
    context: Context<'_, '_>,
    code: &mut Vec<Instr>,
    locals: &Ids<'_>,
    labels: &Labels<'_>,
    group: &[MarkedToken<'_>],
    fits: bool,
) -> Result<(), AllocError>
    requires { IsTrue fits → number_rows (marks_of group.now) ≡ [] }
    ensures { fits ≡ true → no_instruction (drop 1 (marks_of group.now)) ≡ true → OnOk result (map views.instr_of code.new.items ≡ map views.instr_of code.old.items
        ++ spec.instructions_in (names.names_at (module_names context.entry) locals.now) labels.now (marks_of group.now)) }
{
    if !fits {
        return Ok(());
    }
    push_group(context, code, locals, labels, group)
}

/// The code of a function, with the end that closes it.
#[derive(Drop)]
struct WholeCode {
    code: Vec<Instr>,
    /// Whether no number of it is out of its range.
    fits: bool,
}

fn whole_code(made: MadeCode<'_>) -> Result<WholeCode, AllocError>
    ensures { IfOk result (λ w. IsWholeOf w made.entry) }
{
    let MadeCode {
        labels: _,
        code,
        fits,
    } = made;
    let mut code = code;
    code.push(Instr::End)?;
    Ok(WholeCode { code, fits })
}

fn both(a: bool, b: bool) -> bool
    ensures { result ≡ (a && b) }
{
    a && b
}

/// Judges a group of tokens and makes its instruction.
fn judge_group<'a>(
    context: Context<'_, '_>,
    made: &mut MadeCode<'a>,
    rows: &mut FieldRows,
    locals: &Ids<'_>,
    group: &[MarkedToken<'a>],
) -> Result<(), AllocError>
    ensures made { (done : List Marked) → HasMadeCode (module_names context.entry) locals.now made.old done → no_instruction (drop 1 (marks_of group.now)) ≡ true
        → (done ≡ []) ⊎ (begins_instruction (marks_of group.now) ≡ true)
        → OnOk result (HasMadeCode (module_names context.entry) locals.now made.new (done ++ marks_of group.now)) }
    ensures rows { (done before : List Marked) (whole : List names.Field) → made.old.labels ≡ labels_behind [] done
        → HasRows (module_names context.entry) (module_types context.entry) rows.old (before ++ done) whole (use_rows (names.names_at (module_names context.entry) locals.now) [] done)
        → OnOk result (HasRows (module_names context.entry) (module_types context.entry) rows.new (before ++ (done ++ marks_of group.now)) whole
        (use_rows (names.names_at (module_names context.entry) locals.now) [] (done ++ marks_of group.now))) }
{
    let fits = number_rows(&mut rows.numbers, group);
    make_group(context, &mut made.code, locals, &made.labels, group, fits)?;
    made.fits = both(made.fits, fits);
    use_rows(
        &mut rows.fields,
        context.spaces,
        locals,
        &mut made.labels,
        group,
    )
}

/// Lists a function, where no number of it is out of its range. Its heads alone are given.
fn list_function(
    context: Context<'_, '_>,
    lists: &mut Lists<'_>,
    parts: &[MarkedToken<'_>],
    whole: WholeCode,
) -> Result<(), AllocError>
    ensures { (fs : List names.Field) (f : names.Field) → HasLists (module_names context.entry) (module_types context.entry) lists.old fs → f.kind ≡ kinds.Func → marks_of parts.now ≡ heads f.parts
        → HasWholeCode (module_names context.entry) (locals_of (module_names context.entry) (module_types context.entry) f) whole f.parts
        → OnOk result (number_rows f.parts ≡ [] → HasLists (module_names context.entry) (module_types context.entry) lists.new (fs ++ f ∷ [])) }
{
    if !both(whole.fits, all_fit(parts)) {
        return Ok(());
    }
    lists.add_function(context, parts, whole.code)
}

/// Keeps a token that is a head.
fn keep_head<'a>(
    heads: &mut Vec<MarkedToken<'a>>,
    token: &MarkedToken<'a>,
) -> Result<(), AllocError>
    ensures { OnOk result (marks_of heads.new.items ≡ marks_of heads.old.items ++ only (is_head (mark_of token.now.mark)) (marked_of token.now)) }
{
    if !is_head(token.mark) {
        return Ok(());
    }
    heads.push(*token)?;
    Ok(())
}

impl<'a> MadeCode<'a> {
    /// Of no code.
    fn new(alloc: Global, hashes: KeyHashes) -> MadeCode<'a>
        ensures labels { result.labels ≡ [] }
        ensures code { result.code.items ≡ [] }
        ensures fits { result.fits ≡ true }
    {
        MadeCode {
            labels: Labels::new(alloc, hashes),
            code: Vec::new(alloc),
            fits: true,
        }
    }
}

impl<'a> OpenFunction<'a> {
    /// Nothing of a function.
    pub fn new(alloc: Global, hashes: KeyHashes) -> OpenFunction<'a>
        ensures { IsEmpty result }
    {
        OpenFunction {
            heads: Vec::new(alloc),
            group: Vec::new(alloc),
            in_code: false,
            locals: Ids::unnamed(alloc, hashes, 0),
            made: MadeCode::new(alloc, hashes),
        }
    }

    /// Its heads, as a field.
    fn field(&self, begun: Begun) -> Field<'_, 'a>
        ensures { field_of result ≡ record { kind = begun.kind; at = begun.at; parts = marks_of self.now.heads.items } }
    {
        Field {
            kind: begun.kind,
            at: begun.at,
            parts: self.heads.as_slice(),
        }
    }

    /// The heads are all there, if the code begins now.
    fn begin_code(&mut self, context: Context<'_, 'a>, begun: Begun) -> Result<(), AllocError>
        requires { begun.kind ≡ kinds.Func }
        ensures function { (f : names.Field) (done : List Marked) → HasFunction (module_names context.entry) (module_types context.entry) self.old f done
            → OnOk result (HasFunction (module_names context.entry) (module_types context.entry) self.new f done) }
        ensures in_code { OnOk result (self.new.in_code ≡ true) }
        ensures group { OnOk result (self.new.group ≡ self.old.group) }
    {
        if self.in_code {
            return Ok(());
        }
        self.locals = locals_of(
            context.alloc,
            context.hashes,
            context.spaces,
            context.types,
            &self.field(begun),
        )?;
        self.in_code = true;
        Ok(())
    }

    /// Judges the group and makes its instruction.
    fn end_group(
        &mut self,
        context: Context<'_, 'a>,
        rows: &mut FieldRows,
    ) -> Result<(), AllocError>
        ensures whole { (f : names.Field) (before : List Marked) (whole : List names.Field) → IsJudged (module_names context.entry) (module_types context.entry) self.old rows.old f before whole → self.old.in_code ≡ true
            → OnOk result (IsWhole (module_names context.entry) (module_types context.entry) self.new rows.new f before whole) }
        ensures in_code { OnOk result (self.new.in_code ≡ self.old.in_code) }
    {
        judge_group(
            context,
            &mut self.made,
            rows,
            &self.locals,
            self.group.as_slice(),
        )?;
        self.group.clear();
        Ok(())
    }

    /// One more instruction: the group before it is whole.
    fn add_instruction(
        &mut self,
        context: Context<'_, 'a>,
        rows: &mut FieldRows,
        begun: Begun,
        token: &MarkedToken<'a>,
    ) -> Result<(), AllocError>
        requires kind { begun.kind ≡ kinds.Func }
        requires instruction { spec.is_instruction (mark_of token.now.mark) ≡ true }
        ensures judged { (f : names.Field) (before : List Marked) (whole : List names.Field) → IsJudged (module_names context.entry) (module_types context.entry) self.old rows.old f before whole
            → OnOk result (IsJudged (module_names context.entry) (module_types context.entry) self.new rows.new (with_part f (marked_of token.now)) before whole) }
        ensures in_code { OnOk result (self.new.in_code ≡ true) }
    {
        self.begin_code(context, begun)?;
        self.end_group(context, rows)?;
        self.group.push(*token)?;
        Ok(())
    }

    /// One more token that is no instruction.
    fn add_part(&mut self, token: &MarkedToken<'a>) -> Result<(), AllocError>
        requires { spec.is_instruction (mark_of token.now.mark) ≡ false }
        ensures judged { (names_of : Space → names.Names) (types : List FunctionType) (rows : FieldRows) (f : names.Field) (before : List Marked) (whole : List names.Field)
            → IsJudged names_of types self.old rows f before whole → (self.old.in_code ≡ true → is_head (mark_of token.now.mark) ≡ false)
            → OnOk result (IsJudged names_of types self.new rows (with_part f (marked_of token.now)) before whole) }
        ensures in_code { OnOk result (self.new.in_code ≡ self.old.in_code) }
    {
        keep_head(&mut self.heads, token)?;
        self.group.push(*token)?;
        Ok(())
    }

    /// One more token of the function.
    pub fn add(
        &mut self,
        context: Context<'_, 'a>,
        rows: &mut FieldRows,
        begun: Begun,
        token: &MarkedToken<'a>,
    ) -> Result<(), AllocError>
        requires { begun.kind ≡ kinds.Func }
        ensures judged { (f : names.Field) (before : List Marked) (whole : List names.Field) → IsJudged (module_names context.entry) (module_types context.entry) self.old rows.old f before whole
            → (self.old.in_code ≡ true → is_head (mark_of token.now.mark) ≡ false)
            → OnOk result (IsJudged (module_names context.entry) (module_types context.entry) self.new rows.new (with_part f (marked_of token.now)) before whole) }
        ensures in_code { OnOk result (self.new.in_code ≡ (if spec.is_instruction (mark_of token.now.mark) then true else self.old.in_code)) }
    {
        if is_instruction(token.mark) {
            self.add_instruction(context, rows, begun, token)
        } else {
            self.add_part(token)
        }
    }

    /// The function is whole: it is judged, and made where no number of it is out of its range.
    pub fn end(
        &mut self,
        context: Context<'_, 'a>,
        rows: &mut FieldRows,
        lists: &mut Lists<'a>,
        begun: Begun,
    ) -> Result<(), AllocError>
        requires { begun.kind ≡ kinds.Func }
        ensures rows { (f : names.Field) (before : List Marked) (whole : List names.Field) → IsJudged (module_names context.entry) (module_types context.entry) self.old rows.old f before whole → f.at ≡ begun.at
            → OnOk result (HasRows (module_names context.entry) (module_types context.entry) rows.new (before ++ f.parts) (whole ++ f ∷ []) []) }
        ensures lists { (f : names.Field) (before : List Marked) (whole : List names.Field) → IsJudged (module_names context.entry) (module_types context.entry) self.old rows.old f before whole
            → HasLists (module_names context.entry) (module_types context.entry) lists.old whole
            → OnOk result (number_rows f.parts ≡ [] → HasLists (module_names context.entry) (module_types context.entry) lists.new (whole ++ f ∷ [])) }
        ensures empty { (f : names.Field) (before : List Marked) (whole : List names.Field) → IsJudged (module_names context.entry) (module_types context.entry) self.old rows.old f before whole
            → OnOk result (IsEmpty self.new) }
    {
        self.begin_code(context, begun)?;
        self.end_group(context, rows)?;
        rows.note_kind(context, &self.field(begun))?;
        let made = mem::replace(&mut self.made, MadeCode::new(context.alloc, context.hashes));
        let whole = whole_code(made)?;
        list_function(context, lists, self.heads.as_slice(), whole)?;
        self.heads.clear();
        self.in_code = false;
        Ok(())
    }
}
