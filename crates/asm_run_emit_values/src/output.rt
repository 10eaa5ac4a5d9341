//! The code that was made so far.
ghost use Rattle.std.specs.Prelude.{◌≡◌, [], ◌∷◌, reverse, length, OnOk};

use asm_run_code::Op;
use std::alloc::{AllocError, Global};
use std::marker::Model;

// How many operations have addresses of 32 bits.
const MOST: usize = 0xffff_ffff;

/// Code that was made so far, from its end: what is put comes before what is there. It is held as it is stored, the last
/// operation first.
#[derive(Drop)]
pub struct Output {
    alloc: Global,
    ops: Vec<Op>,
}

impl Model for Output {
    ghost use Rattle.std.specs.Prelude.{◌<◌, ◌^◌, List, reverse, length};
    ghost use Rattle.asm_run_code.specs.declared.op.Op.{Op};

    ghost Value = { List Op };

    ghost view = { λ output. reverse output.ops.items };

    ghost invariant = { λ output. length output.ops.items < 2 ^ 32 };
}

impl Output {
    /// None. It takes no memory.
    pub fn new(alloc: Global) -> Output
        ensures { result ≡ [] }
    {
        Output {
            alloc,
            ops: Vec::new(alloc),
        }
    }

    /// Where its memory comes from.
    pub fn alloc(&self) -> Global {
        self.alloc
    }

    /// One more operation, before the others. 2^32 of them have no addresses, which is want of memory.
    pub fn put(&mut self, op: Op) -> Result<(), AllocError>
        ensures { OnOk result (self.new ≡ op ∷ self.old) }
    {
        if self.ops.len() >= MOST {
            return Err(AllocError);
        }
        self.ops.push(op)?;
        Ok(())
    }

    /// The address of the first operation: how many there are.
    pub fn address(&self) -> u32
        ensures { result ≡ length self.now }
    {
        self.ops.len() as u32
    }

    /// As it is stored, the last operation first.
    pub fn stored(&self) -> &[Op]
        ensures { reverse result.now ≡ self.now }
    {
        self.ops.as_slice()
    }

    /// Begins anew, with the memory that it has.
    pub fn clear(&mut self)
        ensures { self.new ≡ [] }
    {
        self.ops.clear();
    }
}
