// What each name of a module means.

ghost use Rattle.std.specs.Prelude.{◌≡◌, IfOk};
ghost use Rattle.asm_tree.specs.Views.{module_view};
ghost use Rattle.asm_lang_valid.specs.Scope.{module_meaning};
ghost use Rattle.asm_names.specs.Meanings.{meaning_view};
ghost use Rattle.asm_names.specs.Members.{IsNumbered};
ghost use Rattle.key_hashes.specs.Hashes.{hashes};
ghost use Rattle.asm_names.specs.Environments.{IsComplete};
ghost use Rattle.asm_names.specs.Hashed.{module_seed};

use crate::declared::put_all;
use crate::hashes::module_hashes;
use crate::imports::imports_of;
use crate::meaning::Meaning;
use asm_tree::Module;
use indexmap::IndexMap;
use key_hashes::{KeyHashes, NameKey};
use std::alloc::{AllocError, Global};

/// The names of a module with their meanings. Of declarations with one name the first counts.
#[derive(Drop)]
pub struct Environment<'a> {
    home: &'a Module,
    hashes: KeyHashes,
    names: IndexMap<NameKey<'a>, Meaning<'a>, KeyHashes>,
}

impl<'a> Environment<'a> {
    /// The names of a module.
    pub fn new(alloc: Global, home: &'a Module) -> Result<Environment<'a>, AllocError>
        ensures of { IfOk result (λ e. e.home.now ≡ home.now) }
        ensures complete { IfOk result IsComplete }
        ensures hashes { IfOk result (λ e. e.hashes ≡ hashes (module_seed home.now)) }
    {
        let count = home.functions.len().saturating_add(home.globals.len());
        let hashes = module_hashes(home);
        let imports = imports_of(alloc, home, hashes)?;
        let mut names = IndexMap::with_capacity_and_hasher(alloc, count, hashes)?;
        put_all(&mut names, home, &imports)?;
        Ok(Environment {
            home,
            hashes,
            names,
        })
    }

    /// The module.
    pub fn home(&self) -> &'a Module
        ensures { result.now ≡ self.now.home.now }
    {
        self.home
    }

    /// What makes hashers for maps of the module's names. It rests on all names that are declared, imported or exported.
    pub fn hashes(&self) -> KeyHashes
        ensures { result ≡ self.now.hashes }
    {
        self.hashes
    }

    /// What a name means in the module, or None where it isn't declared.
    pub fn meaning(&self, name: &[u8]) -> Option<Meaning<'a>>
        requires { IsComplete self.now }
        ensures known { meaning_view result ≡ module_meaning (module_view self.now.home.now) name.now }
        ensures numbered { IsNumbered (module_view self.now.home.now) result }
    {
        match self.names.get(&NameKey::of(name)) {
            Some(meaning) => Some(*meaning),
            None => None,
        }
    }
}
