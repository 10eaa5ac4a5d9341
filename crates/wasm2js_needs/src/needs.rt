//! What a module asks for, by one pass over its code.
ghost use Rattle.std.specs.Prelude.{◌≡◌, ◌||◌, map, IfOk};
ghost use Rattle.std.specs.List.{list_any};
ghost use Rattle.wasm_tree.specs.Views.{body_of, instr_of, module_of, segment_of};
ghost use Rattle.wasm2js_lang.specs.Parts.Functions as parts;
ghost use Rattle.wasm2js_needs.specs.Needs.{none, noted, needs_for};

use crate::instructions::{
    counts_set_bits, is_copy, is_fill, is_load, is_quotient, is_remainder, is_signed_quotient,
    is_signed_remainder, is_store, is_wide_operator,
};
use std::alloc::{AllocError, Global};
use wasm_tree::{Body, Instr, Module, Segment};

/// Which helpers a module asks for.
#[derive(Clone, Copy)]
pub struct Needs {
    /// All helpers on words of 64 bits.
    pub wide: bool,
    /// The count of set bits.
    pub set_bits: bool,
    /// Quotients and remainders of words of 32 bits.
    pub signed_quotient: bool,
    pub quotient: bool,
    pub signed_remainder: bool,
    pub remainder: bool,
    /// Words at any place of the memory.
    pub load_32: bool,
    pub load_64: bool,
    pub store_32: bool,
    pub store_64: bool,
    /// Runs of bytes.
    pub copy: bool,
    pub fill: bool,
    /// What writes words of long data segments.
    pub long_segments: bool,
}

impl Needs {
    // Of no code.
    fn of_segments(long_segments: bool) -> Needs
        ensures { result ≡ none long_segments }
    {
        Needs {
            wide: false,
            set_bits: false,
            signed_quotient: false,
            quotient: false,
            signed_remainder: false,
            remainder: false,
            load_32: false,
            load_64: false,
            store_32: false,
            store_64: false,
            copy: false,
            fill: false,
            long_segments,
        }
    }

    // .. and of one more instruction.
    fn with(self, instr: &Instr) -> Needs
        ensures { result ≡ noted self (λ is_one. is_one (instr_of instr.now)) }
    {
        Needs {
            wide: either(self.wide, is_wide_operator(instr)),
            set_bits: either(self.set_bits, counts_set_bits(instr)),
            signed_quotient: either(self.signed_quotient, is_signed_quotient(instr)),
            quotient: either(self.quotient, is_quotient(instr)),
            signed_remainder: either(self.signed_remainder, is_signed_remainder(instr)),
            remainder: either(self.remainder, is_remainder(instr)),
            load_32: either(self.load_32, is_load(4, instr)),
            load_64: either(self.load_64, is_load(8, instr)),
            store_32: either(self.store_32, is_store(4, instr)),
            store_64: either(self.store_64, is_store(8, instr)),
            copy: either(self.copy, is_copy(instr)),
            fill: either(self.fill, is_fill(instr)),
            long_segments: self.long_segments,
        }
    }

    // .. and of more code.
    fn with_code(self, code: &[Instr]) -> Needs
        ensures { result ≡ noted self (λ is_one. list_any is_one (map instr_of code.now)) }
    {
        let mut needs = self;
        for instr in code {
            needs = needs.with(instr);
        }
        needs
    }
}

fn either(before: bool, now: bool) -> bool
    ensures { result ≡ (before || now) }
{
    before || now
}

/// Which helpers the code and the data segments of a module ask for.
pub fn needs_of(alloc: Global, module: &Module<'_>) -> Result<Needs, AllocError>
    ensures { IfOk result (λ needs. needs ≡ needs_for (module_of «module».now)) }
{
    let long = any_long(module.segments.as_slice());
    let needs = needs_of_bodies(alloc, Needs::of_segments(long), module.bodies.as_slice())?;
    Ok(needs)
}

// These needs, and those of bodies.
fn needs_of_bodies(alloc: Global, before: Needs, bodies: &[Body<'_>]) -> Result<Needs, AllocError>
    ensures { IfOk result (λ needs. needs ≡ noted before (λ is_one. list_any (λ b. list_any is_one b.code) (map body_of bodies.now))) }
{
    let mut needs = before;
    for body in bodies {
        let code = body.code.instrs(alloc)?;
        needs = needs.with_code(code.as_slice());
    }
    Ok(needs)
}

fn any_long(segments: &[Segment<'_>]) -> bool
    ensures { result ≡ list_any parts.is_long (map segment_of segments.now) }
{
    for segment in segments {
        if segment.bytes.as_bytes().len() >= 512 {
            return true;
        }
    }
    false
}
