//! The ids that fields bind in one space, one after another.

ghost use Rattle.std.specs.Prelude.{◌≡◌, ◌+◌, ◌++◌, [], ◌∷◌, List, IfOk, OnOk, None, replicate, true};
ghost use Rattle.wat_lang.specs.Names as spec;
ghost use Rattle.wat_read_tokens.specs.Marks.{marks_of};
ghost use Rattle.wat_read_names.specs.Fields.{field_of};
ghost use Rattle.wat_read_names.specs.Named.{name_of, names_in};
ghost use Rattle.wat_read_names.specs.Bound.{IsBound};

use crate::field::Field;
use crate::ids::Ids;
use key_hashes::KeyHashes;
use std::alloc::{AllocError, Global};
use std::marker::Model;
use std::mem;
use wat_lang::Space;
use wat_marks::MarkedToken;
use wat_read_tokens::{Wanted, atom, first};

/// Ids in order. The first ones, as long as none is given, are only counted.
#[derive(Drop)]
pub struct NameList<'a> {
    unnamed: usize,
    names: Vec<Option<&'a [u8]>>,
}

impl<'a> Model for NameList<'a> {
    ghost use Rattle.wat_lang.specs.Names as spec;
    ghost use Rattle.wat_read_names.specs.Named.{names_behind};

    ghost Value = { spec.Names };

    ghost view = { λ s. names_behind s.unnamed s.names.items };
}

/// So many ids and so many more. 2^64 of them have no room.
fn together(count: usize, more: usize) -> Result<usize, AllocError>
    ensures { IfOk result (λ n. n ≡ count + more) }
{
    match count.checked_add(more) {
        Some(sum) => Ok(sum),
        None => Err(AllocError),
    }
}

/// Appends so many places that have no ids.
fn push_unnamed(names: &mut Vec<Option<&[u8]>>, count: usize) -> Result<(), AllocError>
    ensures { OnOk result (names_in names.new.items ≡ names_in names.old.items ++ replicate count None) }
{
    for _ in 0..count {
        names.push(None)?;
    }
    Ok(())
}

fn push_all<'a>(
    names: &mut Vec<Option<&'a [u8]>>,
    more: &[Option<&'a [u8]>],
) -> Result<(), AllocError>
    ensures { OnOk result (names_in names.new.items ≡ names_in names.old.items ++ names_in more.now) }
{
    for name in more {
        names.push(*name)?;
    }
    Ok(())
}

impl<'a> NameList<'a> {
    fn new(alloc: Global) -> NameList<'a>
        ensures { result ≡ [] }
    {
        NameList {
            unnamed: 0,
            names: Vec::new(alloc),
        }
    }

    fn push(&mut self, name: Option<&'a [u8]>) -> Result<(), AllocError>
        ensures { OnOk result (self.new ≡ self.old ++ name_of name.entry ∷ []) }
    {
        if name.is_none() && self.names.is_empty() {
            self.unnamed = together(self.unnamed, 1)?;
            return Ok(());
        }
        self.names.push(name)?;
        Ok(())
    }

    /// Appends the ids of another list.
    fn append(&mut self, other: NameList<'a>) -> Result<(), AllocError>
        ensures { OnOk result (self.new ≡ self.old ++ other.entry) }
    {
        let NameList { unnamed, names } = other;
        if self.names.is_empty() {
            self.unnamed = together(self.unnamed, unnamed)?;
            self.names = names;
            return Ok(());
        }
        push_unnamed(&mut self.names, unnamed)?;
        push_all(&mut self.names, names.as_slice())
    }

    /// The ids with their numbers.
    fn ids(self, alloc: Global, hashes: KeyHashes) -> Result<Ids<'a>, AllocError>
        ensures { IfOk result (λ ids. ids ≡ self.entry) }
    {
        let NameList { unnamed, names } = self;
        Ids::new(alloc, hashes, unnamed, names)
    }
}

/// The ids of what is imported into a space, and of what is defined there.
pub struct Bound<'a> {
    pub imported: NameList<'a>,
    pub defined: NameList<'a>,
}

/// By hand, so that the end of both lists is one call.
impl Drop for Bound<'_> {
    fn drop(self) {
        let Bound {
            imported: _,
            defined: _,
        } = self;
    }
}

/// The id that a field binds in the space.
#[tactic(auto, using(wat_read_tokens::proofs::Tests::binding_reads))]
fn id_bound<'a>(space: Space, parts: &[MarkedToken<'a>]) -> Option<&'a [u8]>
    ensures { name_of result ≡ spec.id_bound space (marks_of parts.now) }
{
    match first(parts, Wanted::Binds(space)) {
        Some(token) => Some(atom(token)),
        None => None,
    }
}

impl<'a> Bound<'a> {
    /// Of no fields.
    pub fn new(alloc: Global) -> Bound<'a>
        ensures imported { result.imported ≡ [] }
        ensures defined { result.defined ≡ [] }
    {
        Bound {
            imported: NameList::new(alloc),
            defined: NameList::new(alloc),
        }
    }

    /// Adds the id of a field that enters the space.
    pub fn add(&mut self, space: Space, field: &Field<'_, 'a>) -> Result<(), AllocError>
        requires { spec.enters space (field_of field.now) ≡ true }
        ensures { (fs : List spec.Field) → IsBound self.old space fs → OnOk result (IsBound self.new space (fs ++ field_of field.now ∷ [])) }
    {
        let name = id_bound(space, field.parts);
        if field.is_import() {
            self.imported.push(name)
        } else {
            self.defined.push(name)
        }
    }

    /// Takes the ids out, those of imports first, with their numbers.
    pub fn taken(&mut self, alloc: Global, hashes: KeyHashes) -> Result<Ids<'a>, AllocError>
        ensures { IfOk result (λ ids. ids ≡ self.old.imported ++ self.old.defined) }
    {
        let mut all = mem::replace(&mut self.imported, NameList::new(alloc));
        let defined = mem::replace(&mut self.defined, NameList::new(alloc));
        all.append(defined)?;
        all.ids(alloc, hashes)
    }
}
