//! The numbers of a module.
ghost use Rattle.std.specs.Prelude.{◌≡◌, None, IfOk, map, length};
ghost use Rattle.sem_words.specs.Lists.{list_items, text_bytes};
ghost use Rattle.asm_tree.specs.Views.{module_view, table_view};
ghost use Rattle.asm_lang_valid.specs.Refusal.{foreign_globals};
ghost use Rattle.asm_lang_valid.specs.Scope as scopes;
ghost use Rattle.asm_lang_valid.specs.Scope.{first_member, module_meaning};
ghost use Rattle.asm_validate_exprs.specs.Signatures.{signature_option};
ghost use Rattle.asm_names.specs.Environments.{IsComplete};
ghost use Rattle.asm_names.specs.Members.{IsMember};
ghost use Rattle.asm2wasm_lang.specs.Tables.{bases_of, entries_of};
ghost use Rattle.asm2wasm_translation.specs.Numbers as code;
ghost use Rattle.asm2wasm_translation.specs.Numbers.{slot_of, global_names, place_among};
ghost use Rattle.asm2wasm_numbers.specs.Places.{place_seen, base_or_zero};
ghost use Rattle.asm2wasm_numbers.specs.Signatures.{signature_said};

use crate::calls::Call;
use crate::names::ModuleNames;
use crate::place::Place;
use crate::signatures::{ModuleTypes, Signature, place_of};
use asm_names::{Environment, Member};
use asm_tree::Table;
use asm_validate::Checked;
use asm_validate_exprs::function_signature;
use asm2wasm_tables::TablePlan;
use sem_words::Text;
use std::alloc::{AllocError, Global};
use std::marker::Model;

/// The numbers by which the translation of a module names its functions, types, globals and table entries. Each is found
/// by a map. Its contracts see the module itself.
#[derive(Drop)]
pub struct ModuleNumbers<'a> {
    checked: &'a Checked,
    environment: Environment<'a>,
    names: ModuleNames<'a>,
    types: ModuleTypes<'a>,
    plan: TablePlan,
}

impl<'a> Model for ModuleNumbers<'a> {
    ghost use Rattle.std.specs.Coded.{codes};
    ghost use Rattle.asm_tree.specs.declared.tree.Module.{Module as Tree};
    ghost use Rattle.asm_tree.specs.contracts.tree.Expr as exprs;
    ghost use Rattle.asm_tree.specs.contracts.tree.Stmt as stmts;
    ghost use Rattle.asm_tree.specs.Views.{module_view};
    ghost use Rattle.asm2wasm_numbers.specs.Numbered.{IsNumbered};

    ghost Value = { Tree };

    ghost coded = { Prim.hlevel (codes, exprs.the_row.coded, stmts.the_row.coded) };

    ghost view = { λ n. n.checked.now };

    ghost invariant = { λ n. IsNumbered n.checked.now n.environment n.names n.types n.plan };
}

impl<'a> ModuleNumbers<'a> {
    /// The numbers of an accepted module.
    pub fn new(alloc: Global, checked: &'a Checked) -> Result<ModuleNumbers<'a>, AllocError>
        ensures { IfOk result (λ numbers. numbers ≡ checked.now) }
    {
        let plan = TablePlan::of(alloc, checked)?;
        let environment = Environment::new(alloc, checked.module())?;
        let types = ModuleTypes::new(alloc, checked, environment.hashes())?;
        let names = ModuleNames::new(alloc, checked)?;
        Ok(ModuleNumbers {
            checked,
            environment,
            names,
            types,
            plan,
        })
    }

    /// The module.
    pub fn checked(&self) -> &'a Checked
        ensures { result.now ≡ self.now }
    {
        self.checked
    }

    /// What the names of the module mean.
    pub fn environment(&self) -> &Environment<'a>
        ensures of { result.now.home.now ≡ self.now }
        ensures complete { IsComplete result.now }
    {
        &self.environment
    }

    /// The number of the first function of this name, after the imported ones, or the number past the last.
    pub fn own_number(&self, name: &Text) -> usize
        ensures { result ≡ code.own_number (module_view self.now) (text_bytes name.now) }
    {
        self.types.calls.len() + self.names.functions.slot_or_len(name.as_bytes())
    }

    /// The number of an imported function, by the foreign member, the number of arguments, and whether it has a result.
    pub fn import_number(&self, member: Member<'_>, params: usize, valued: bool) -> usize
        requires { IsMember (module_view self.now) (text_bytes member.name.now) member.declaration }
        ensures { result ≡ code.import_number (module_view self.now) (record { name = text_bytes member.entry.name.now; params = params; result = valued }) }
    {
        self.types.calls.number(Call {
            declaration: member.declaration,
            params,
            result: valued,
        })
    }

    /// The number of a type, by the number of arguments and whether it has a result.
    pub fn type_number(&self, params: usize, valued: bool) -> usize
        ensures { result ≡ code.type_number (module_view self.now) (record { params = params; result = valued }) }
    {
        let signature = Signature {
            params,
            result: valued,
        };
        place_of(&self.types.signatures, signature)
    }

    /// The number of the type of a table's members.
    pub fn table_type(&self, table: &Table) -> usize
        ensures { result ≡ code.table_type (module_view self.now) (table_view table.now) }
    {
        match self.first_member(table) {
            Some(signature) => self.type_number(signature.params, signature.result),
            None => 0,
        }
    }

    fn first_member(&self, table: &Table) -> Option<asm_validate_exprs::Signature>
        ensures { signature_option result ≡ first_member (module_view self.now) (table_view table.now).members }
    {
        match table.members.get(0) {
            Some(name) => self.named_signature(name),
            None => None,
        }
    }

    fn named_signature(&self, name: &Text) -> Option<asm_validate_exprs::Signature>
        ensures { signature_option result ≡ scopes.function_signature (module_meaning (module_view self.now) (text_bytes name.now)) }
    {
        function_signature(self.environment.meaning(name.as_bytes()))
    }

    /// Where the entries of the first table of this name begin, or 0.
    pub fn base(&self, name: &Text) -> usize
        ensures { result ≡ code.base_of (module_view self.now) (text_bytes name.now) }
    {
        match self.names.tables.slot(name.as_bytes()) {
            Some(slot) => base_at(self.plan.bases.as_slice(), slot),
            None => 0,
        }
    }

    /// The types, each once, in order of first use, of the imported functions first.
    pub fn signatures(&self) -> &[Signature]
        ensures { map signature_said result.now ≡ code.signatures (module_view self.now) }
    {
        self.types.signatures.as_slice()
    }

    /// The number of the imported global of a foreign member.
    pub fn given_global(&self, member: &Text) -> Option<usize>
        ensures { result ≡ slot_of (foreign_globals (module_view self.now)) (text_bytes member.now) }
    {
        self.names.given.slot(member.as_bytes())
    }

    /// Where a variable of the module stands.
    pub fn global_place(&self, name: &[u8]) -> Place
        ensures { place_seen result ≡ place_among (length (foreign_globals (module_view self.now))) None (slot_of (global_names (module_view self.now)) name.now) }
    {
        let imported = self.checked.foreign_globals();
        match self.names.globals.slot(name) {
            Some(slot) => Place::Global(imported.len() + slot),
            None => Place::Nowhere,
        }
    }

    /// The tables laid end to end.
    pub fn plan(&self) -> &TablePlan
        ensures bases { list_items result.now.bases ≡ bases_of (module_view self.now) }
        ensures entries { list_items result.now.entries ≡ entries_of (module_view self.now) }
    {
        &self.plan
    }
}

fn base_at(bases: &[usize], slot: usize) -> usize
    ensures { result ≡ base_or_zero bases.now slot }
{
    match bases.get(slot) {
        Some(base) => *base,
        None => 0,
    }
}
