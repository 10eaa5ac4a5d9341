//! The first reading of a text: what its fields put into the spaces of the module, and the rows that need no more than that.

ghost use Rattle.std.specs.Prelude.{◌≡◌, [], ◌∷◌, ◌++◌, IfOk, IfErr, OnOk, List, flat_map, false};
ghost use Rattle.wat_lang.specs.Grammar.{a_field, Marked};
ghost use Rattle.wat_lang.specs.Names as names;
ghost use Rattle.wat_lang.specs.Rows.{taken_in, least};
ghost use Rattle.wat_laws_kept.specs.Heads.{is_head};
ghost use Rattle.wat_laws_kept.specs.FieldByField.{is_field};
ghost use Rattle.wat_grammar.specs.Views.{mark_of};
ghost use Rattle.wat_marks.specs.Views.{IsMarkedAs, IsFaultOf, marked_of};
ghost use Rattle.wat_read_names.specs.Fields.{field_of};
ghost use Rattle.wat_read_refusals.specs.Single.{module_spaces};
ghost use Rattle.wat_read_outline.specs.Outlines.{HasNoted, HasFields, HasOutlined, HasClosed, IsOutlineOf, says_nothing};

use key_hashes::{KeyHashes, Seed};
use std::alloc::{AllocError, Global};
use wat_grammar::Mark;
use wat_lang::{FieldKind, Space};
use wat_marks::{MarkReader, MarkedToken, WatFault};
use wat_read_names::{Field, ModuleNames, Naming, add_id};
use wat_read_refusals::{Least, module_taken, note_entries, note_name, push_binding};
use wat_read_rows::Orders;

/// A field that has begun: its kind, and the offset of its keyword.
#[derive(Clone, Copy)]
pub struct Begun {
    pub kind: FieldKind,
    pub at: u64,
}

/// What was noted of tokens, whatever fields they are of.
#[derive(Drop)]
struct TokenNotes<'a> {
    /// The ids that are bound, for hashers of them.
    seed: Seed,
    /// The tokens that bind ids in spaces of the module.
    bindings: Vec<MarkedToken<'a>>,
    names: Least,
    entries: Least,
}

/// What was noted of fields that are whole.
#[derive(Drop)]
struct FieldNotes<'a> {
    naming: Naming<'a>,
    orders: Orders,
}

/// What was noted of a text as far as it was read.
#[derive(Drop)]
struct Outline<'a> {
    tokens: TokenNotes<'a>,
    fields: FieldNotes<'a>,
    open: Option<Begun>,
    /// Of the field that stands open.
    heads: Vec<MarkedToken<'a>>,
}

/// What a text puts into the spaces of its module, and the first refusal by each kind of row that needs no more than that.
#[derive(Drop)]
pub struct Outlined<'a> {
    pub names: ModuleNames<'a>,
    pub hashes: KeyHashes,
    pub utf8: Least,
    pub taken: Least,
    pub orders: Least,
    pub entries: Least,
}

/// Whether a mark stands in the spaces, heads, names and limits of no text.
fn says_nothing(mark: Mark) -> bool
    ensures { result ≡ says_nothing (mark_of mark) }
{
    matches!(
        mark,
        Mark::Instruction(_)
            | Mark::Uses(_)
            | Mark::Word32
            | Mark::Word64
            | Mark::Offset
            | Mark::Alignment
            | Mark::BlockResult
            | Mark::GlobalType
            | Mark::Bytes
    )
}

/// Whether a field puts it into a space, or it is a type of the head of a function.
pub fn is_head(mark: Mark) -> bool
    ensures { result ≡ is_head (mark_of mark) }
{
    match mark {
        Mark::Described(_) | Mark::TypeUse | Mark::Type(_) => true,
        Mark::Binds(space) => !matches!(space, Space::Label),
        _ => false,
    }
}

impl<'a> TokenNotes<'a> {
    fn new(alloc: Global) -> TokenNotes<'a>
        ensures { HasNoted result [] }
    {
        TokenNotes {
            seed: Seed::new(),
            bindings: Vec::new(alloc),
            names: Least::new(),
            entries: Least::new(),
        }
    }

    fn note(&mut self, alloc: Global, token: &MarkedToken<'a>) -> Result<(), AllocError>
        ensures { (ks : List Marked) → HasNoted self.old ks → OnOk result (HasNoted self.new (ks ++ marked_of token.now ∷ [])) }
    {
        add_id(&mut self.seed, token);
        push_binding(&mut self.bindings, token)?;
        note_entries(&mut self.entries, token);
        note_name(alloc, &mut self.names, token)
    }

    /// The first id that is bound again in a space of the module.
    fn taken(&self, alloc: Global, hashes: KeyHashes) -> Result<Least, AllocError>
        ensures { (ks : List Marked) → HasNoted self.now ks → IfOk result (λ r. r ≡ least (flat_map (λ s. taken_in s ks) module_spaces)) }
    {
        let mut taken = Least::new();
        module_taken(alloc, hashes, &mut taken, self.bindings.as_slice())?;
        Ok(taken)
    }
}

impl<'a> FieldNotes<'a> {
    fn new(alloc: Global) -> FieldNotes<'a>
        ensures { HasFields result [] }
    {
        FieldNotes {
            naming: Naming::new(alloc),
            orders: Orders::new(),
        }
    }

    fn note(&mut self, alloc: Global, field: &Field<'_, 'a>) -> Result<(), AllocError>
        ensures { (fs : List names.Field) → HasFields self.old fs → OnOk result (HasFields self.new (fs ++ field_of field.now ∷ [])) }
    {
        self.orders.note(field);
        self.naming.add(alloc, field)
    }
}

impl<'a> Outline<'a> {
    fn new(alloc: Global) -> Outline<'a>
        ensures { HasOutlined result [] }
    {
        Outline {
            tokens: TokenNotes::new(alloc),
            fields: FieldNotes::new(alloc),
            open: None,
            heads: Vec::new(alloc),
        }
    }

    /// Notes the field that stands open, if one does.
    fn note_open(&mut self, alloc: Global) -> Result<(), AllocError>
        ensures { (ks : List Marked) → HasOutlined self.old ks → OnOk result (HasClosed self.new ks) }
    {
        match self.open {
            Some(begun) => {
                let field = Field {
                    kind: begun.kind,
                    at: begun.at,
                    parts: self.heads.as_slice(),
                };
                self.fields.note(alloc, &field)
            }
            None => Ok(()),
        }
    }

    /// Puts the field away that stands open, if one does.
    fn close(&mut self, alloc: Global) -> Result<(), AllocError>
        ensures whole { (ks : List Marked) → HasOutlined self.old ks → OnOk result (HasClosed self.new ks) }
        ensures heads { OnOk result (self.new.heads.items ≡ []) }
    {
        self.note_open(alloc)?;
        self.heads.clear();
        Ok(())
    }

    /// Begins a field at its keyword.
    fn begin(&mut self, alloc: Global, kind: FieldKind, at: u64) -> Result<(), AllocError>
        ensures { (ks : List Marked) (m : Marked) → HasOutlined self.old ks → m.mark ≡ a_field kind → m.token.at ≡ at → OnOk result (HasOutlined self.new (ks ++ m ∷ [])) }
    {
        self.close(alloc)?;
        self.open = Some(Begun { kind, at });
        Ok(())
    }

    /// Notes a part of the field that stands open.
    fn add_part(&mut self, alloc: Global, token: &MarkedToken<'a>) -> Result<(), AllocError>
        requires { is_field (mark_of token.now.mark) ≡ false }
        ensures { (ks : List Marked) → HasOutlined self.old ks → OnOk result (HasOutlined self.new (ks ++ marked_of token.now ∷ [])) }
    {
        self.tokens.note(alloc, token)?;
        if !is_head(token.mark) {
            return Ok(());
        }
        self.heads.push(*token)?;
        Ok(())
    }

    /// Looks at one more token.
    fn add(&mut self, alloc: Global, token: &MarkedToken<'a>) -> Result<(), AllocError>
        ensures { (ks : List Marked) → HasOutlined self.old ks → OnOk result (HasOutlined self.new (ks ++ marked_of token.now ∷ [])) }
    {
        match token.mark {
            Mark::Field(kind) => self.begin(alloc, kind, token.token.at),
            mark => {
                if says_nothing(mark) {
                    return Ok(());
                }
                self.add_part(alloc, token)
            }
        }
    }

    /// What the whole text puts into the spaces of its module.
    fn outlined(mut self, alloc: Global) -> Result<Outlined<'a>, AllocError>
        ensures { (ks : List Marked) → HasOutlined self.entry ks → IfOk result (λ o. IsOutlineOf o ks) }
    {
        self.close(alloc)?;
        let Outline {
            tokens,
            fields,
            open: _,
            heads: _,
        } = self;
        let hashes = tokens.seed.hashes();
        let taken = tokens.taken(alloc, hashes)?;
        let FieldNotes { naming, orders } = fields;
        let names = naming.names(alloc, hashes)?;
        Ok(Outlined {
            names,
            hashes,
            utf8: tokens.names,
            taken,
            orders: orders.found(),
            entries: tokens.entries,
        })
    }
}

fn read_outline<'a>(alloc: Global, source: &'a [u8]) -> Result<Outline<'a>, WatFault>
    ensures found { IfOk result (λ o. (ks : List Marked) × IsMarkedAs source.now ks × HasOutlined o ks) }
    ensures fault { IfErr result (λ e. IsFaultOf source.now e) }
{
    let mut reader = MarkReader::new(alloc, source)?;
    let mut outline = Outline::new(alloc);
    while let Some(token) = reader.next()? {
        outline.add(alloc, &token)?;
    }
    Ok(outline)
}

/// Reads a text for what it puts into the spaces of its module.
pub fn outline_of<'a>(alloc: Global, source: &'a [u8]) -> Result<Outlined<'a>, WatFault>
    ensures found { IfOk result (λ o. (ks : List Marked) × IsMarkedAs source.now ks × IsOutlineOf o ks) }
    ensures fault { IfErr result (λ e. IsFaultOf source.now e) }
{
    let outline = read_outline(alloc, source)?;
    let outlined = outline.outlined(alloc)?;
    Ok(outlined)
}
