//! The ids that fields put into the spaces of a module, and their types, field by field.

ghost use Rattle.std.specs.Prelude.{◌≡◌, ◌++◌, [], ◌∷◌, List, IfOk, OnOk, map};
ghost use Rattle.wasm_tree.specs.Views.{type_of};
ghost use Rattle.wat_lang.specs.Names as spec;
ghost use Rattle.wat_lang.specs.declared.parts.Space.TheVariants as spaces;
ghost use Rattle.wat_read_names.specs.Fields.{field_of};
ghost use Rattle.wat_read_names.specs.Bound.{HasNames, HasNamed, EntersOnly};

use crate::field::Field;
use crate::lists::Bound;
use crate::signatures::push_signature;
use crate::spaces::{Spaces, bind};
use key_hashes::KeyHashes;
use std::alloc::{AllocError, Global};
use wasm_tree::FuncType;
use wat_lang::Space;

/// The ids that fields put into the spaces of a module, and their types, field by field.
pub struct Naming<'a> {
    types: Bound<'a>,
    functions: Bound<'a>,
    tables: Bound<'a>,
    memories: Bound<'a>,
    globals: Bound<'a>,
    elements: Bound<'a>,
    segments: Bound<'a>,
    signatures: Vec<FuncType>,
}

/// By hand, so that the end of all lists is one call.
impl Drop for Naming<'_> {
    fn drop(self) {
        let Naming {
            types: _,
            functions: _,
            tables: _,
            memories: _,
            globals: _,
            elements: _,
            segments: _,
            signatures: _,
        } = self;
    }
}

/// The ids of each space of a module, and the types of its functions.
#[derive(Drop)]
pub struct ModuleNames<'a> {
    pub spaces: Spaces<'a>,
    pub types: Vec<FuncType>,
}

impl<'a> Naming<'a> {
    /// Of no fields.
    pub fn new(alloc: Global) -> Naming<'a>
        ensures { HasNamed result [] }
    {
        Naming {
            types: Bound::new(alloc),
            functions: Bound::new(alloc),
            tables: Bound::new(alloc),
            memories: Bound::new(alloc),
            globals: Bound::new(alloc),
            elements: Bound::new(alloc),
            segments: Bound::new(alloc),
            signatures: Vec::new(alloc),
        }
    }

    /// Adds a field that enters the space of types.
    fn add_type(&mut self, alloc: Global, field: &Field<'_, 'a>) -> Result<(), AllocError>
        requires { EntersOnly (field_of field.now) spaces.Type }
        ensures { (fs : List spec.Field) → HasNamed self.old fs → OnOk result (HasNamed self.new (fs ++ field_of field.now ∷ [])) }
    {
        self.types.add(Space::Type, field)?;
        push_signature(alloc, &mut self.signatures, field.parts)
    }

    /// Adds a field that enters the space.
    fn enter(
        &mut self,
        alloc: Global,
        space: Space,
        field: &Field<'_, 'a>,
    ) -> Result<(), AllocError>
        requires { EntersOnly (field_of field.now) space }
        ensures { (fs : List spec.Field) → HasNamed self.old fs → OnOk result (HasNamed self.new (fs ++ field_of field.now ∷ [])) }
    {
        match space {
            Space::Type => self.add_type(alloc, field),
            Space::Func => self.functions.add(Space::Func, field),
            Space::Table => self.tables.add(Space::Table, field),
            Space::Memory => self.memories.add(Space::Memory, field),
            Space::Global => self.globals.add(Space::Global, field),
            Space::Elem => self.elements.add(Space::Elem, field),
            Space::Data => self.segments.add(Space::Data, field),
            Space::Local => Ok(()),
            Space::Label => Ok(()),
        }
    }

    /// Adds a field that is whole.
    pub fn add(&mut self, alloc: Global, field: &Field<'_, 'a>) -> Result<(), AllocError>
        ensures { (fs : List spec.Field) → HasNamed self.old fs → OnOk result (HasNamed self.new (fs ++ field_of field.now ∷ [])) }
    {
        match field.entry() {
            Some(entry) => self.enter(alloc, entry.space, field),
            None => Ok(()),
        }
    }

    /// Puts the ids of each space in.
    fn bind(
        &mut self,
        spaces: &mut Spaces<'a>,
        alloc: Global,
        hashes: KeyHashes,
    ) -> Result<(), AllocError>
        ensures names { (fs : List spec.Field) → HasNamed self.old fs → OnOk result (HasNames spaces.new fs) }
        ensures types { self.new.signatures ≡ self.old.signatures }
    {
        bind(&mut spaces.types, &mut self.types, alloc, hashes)?;
        bind(&mut spaces.functions, &mut self.functions, alloc, hashes)?;
        bind(&mut spaces.tables, &mut self.tables, alloc, hashes)?;
        bind(&mut spaces.memories, &mut self.memories, alloc, hashes)?;
        bind(&mut spaces.globals, &mut self.globals, alloc, hashes)?;
        bind(&mut spaces.elements, &mut self.elements, alloc, hashes)?;
        bind(&mut spaces.segments, &mut self.segments, alloc, hashes)
    }

    /// Lets all but the types go.
    fn into_signatures(self) -> Vec<FuncType>
        ensures { result ≡ self.entry.signatures }
    {
        let Naming {
            types: _,
            functions: _,
            tables: _,
            memories: _,
            globals: _,
            elements: _,
            segments: _,
            signatures,
        } = self;
        signatures
    }

    /// The ids of each space, found by maps, and the types.
    pub fn names(mut self, alloc: Global, hashes: KeyHashes) -> Result<ModuleNames<'a>, AllocError>
        ensures { (fs : List spec.Field) → HasNamed self.entry fs → IfOk result (λ n. HasNames n.spaces fs × (map type_of n.types.items ≡ spec.types_of fs)) }
    {
        let mut spaces = Spaces::empty(alloc, hashes);
        self.bind(&mut spaces, alloc, hashes)?;
        Ok(ModuleNames {
            spaces,
            types: self.into_signatures(),
        })
    }
}
