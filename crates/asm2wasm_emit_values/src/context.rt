//! What the code of an expression depends on.
ghost use Rattle.std.specs.Prelude.{◌≡◌};
ghost use Rattle.sem_words.specs.Lists.{text_bytes};
ghost use Rattle.asm_tree.specs.Views.{module_view};
ghost use Rattle.asm_lang_valid.specs.Typing.{named};
ghost use Rattle.asm_names.specs.Meanings.{meaning_view};
ghost use Rattle.asm_names.specs.Members.{IsNumbered};
ghost use Rattle.asm2wasm_translation.specs.Numbers.{place_of, first_scratch};
ghost use Rattle.asm2wasm_numbers.specs.Places.{place_seen};
ghost use Rattle.asm2wasm_emit_values.specs.Contexts.{scope_in};

use asm_names::Meaning;
use asm2wasm_emit_pieces::Scratch;
use asm2wasm_numbers::{FunctionNumbers, ModuleNumbers, Place};
use sem_words::Text;

/// The numbers of a function, and how many bytes the heap has.
#[derive(Drop)]
pub struct Context<'c, 'm, 'a> {
    numbers: &'c FunctionNumbers<'m, 'a>,
    size: usize,
}

impl<'c, 'm, 'a> Context<'c, 'm, 'a> {
    /// The numbers of a function, in a module with a heap of `size` bytes.
    pub fn new(numbers: &'c FunctionNumbers<'m, 'a>, size: usize) -> Context<'c, 'm, 'a>
        ensures numbers { result.numbers.now ≡ numbers.now }
        ensures size { result.size ≡ size }
    {
        Context { numbers, size }
    }

    /// How many bytes the heap has.
    pub fn size(&self) -> usize
        ensures { result ≡ self.now.size }
    {
        self.size
    }

    /// The numbers of the function.
    pub fn numbers(&self) -> &'c FunctionNumbers<'m, 'a>
        ensures { result.now ≡ self.now.numbers.now }
    {
        self.numbers
    }

    /// The numbers of the module.
    pub fn module(&self) -> &'m ModuleNumbers<'a>
        ensures { module_view result.now ≡ (scope_in self.now).home }
    {
        self.numbers.module()
    }

    /// What a name means in the function, or None where it isn't declared.
    pub fn meaning(&self, name: &Text) -> Option<Meaning<'a>>
        ensures known { meaning_view result ≡ named (scope_in self.now) (text_bytes name.now) }
        ensures numbered { IsNumbered (scope_in self.now).home result }
    {
        self.numbers.meaning(name)
    }

    /// Where a variable stands.
    pub fn place(&self, name: &Text) -> Place
        ensures { place_seen result ≡ place_of (scope_in self.now) (text_bytes name.now) }
    {
        self.numbers.place(name)
    }

    /// The scratch locals that are free at this depth of calls of tables.
    pub fn scratch(&self, depth: usize) -> Scratch
        ensures first { result.first ≡ first_scratch (scope_in self.now).within }
        ensures depth { result.depth ≡ depth }
    {
        Scratch {
            first: self.numbers.first_scratch(),
            depth,
        }
    }
}
