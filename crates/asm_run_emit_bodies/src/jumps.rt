//! Where breaks and continues go from a statement.
ghost use Rattle.std.specs.Prelude.{◌≡◌, ℕ, [], OnOk};
ghost use Rattle.asm_tree.specs.Views.{texts_view, text_option};
ghost use Rattle.asm_run_emit_bodies.specs.Targets.{bytes_option};
ghost use Rattle.asm_run_emit_bodies.specs.declared.jumps.Jumps as declared;
ghost use Rattle.asm_run_code.specs.Bodies.{a_loop, a_switch, a_named};
ghost use Rattle.asm_run_emit_bodies.specs.Jumps.{inside, address};

use crate::targets::Targets;
use key_hashes::KeyHashes;
use sem_words::Text;
use std::alloc::{AllocError, Global};

/// Where breaks and continues go, by what stands round a statement.
#[derive(Drop)]
pub struct Jumps<'l> {
    pub breaks: Targets<'l>,
    pub continues: Targets<'l>,
}

impl<'l> Jumps<'l> {
    /// Where nothing stands round a statement. The hashers are for labels.
    pub fn new(alloc: Global, hashes: KeyHashes) -> Jumps<'l>
        ensures { result ≡ record { breaks = []; continues = [] } }
    {
        Jumps {
            breaks: Targets::new(alloc, hashes),
            continues: Targets::new(alloc, hashes),
        }
    }

    /// Inside a loop with these labels: its next turn, and what comes after it.
    pub fn enter_loop(&mut self, own: &'l [Text], next: u32, past: u32) -> Result<(), AllocError>
        ensures { OnOk result (self.new ≡ inside (a_loop (texts_view own.now) next past) self.old) }
    {
        self.continues.open_all(own, next)?;
        self.continues.open(None, next)?;
        self.breaks.open(None, past)
    }

    /// Outside of it again.
    pub fn leave_loop(&mut self, own: &[Text])
        ensures { (outside : declared.Jumps) (next past : ℕ) → self.old ≡ inside (a_loop (texts_view own.now) next past) outside → self.new ≡ outside }
    {
        self.breaks.close(1);
        self.continues.close(1);
        self.continues.close(own.len());
    }

    /// Inside a switch: what comes after it.
    pub fn enter_switch(&mut self, past: u32) -> Result<(), AllocError>
        ensures { OnOk result (self.new ≡ inside (a_switch past) self.old) }
    {
        self.breaks.open(None, past)
    }

    /// Outside of it again.
    pub fn leave_switch(&mut self)
        ensures { (outside : declared.Jumps) (past : ℕ) → self.old ≡ inside (a_switch past) outside → self.new ≡ outside }
    {
        self.breaks.close(1);
    }

    /// Inside a statement with these labels: what comes after it.
    pub fn enter_labelled(&mut self, labels: &'l [Text], past: u32) -> Result<(), AllocError>
        ensures { OnOk result (self.new ≡ inside (a_named (texts_view labels.now) past) self.old) }
    {
        self.breaks.open_all(labels, past)
    }

    /// Outside of it again.
    pub fn leave_labelled(&mut self, labels: &[Text])
        ensures { (outside : declared.Jumps) (past : ℕ) → self.old ≡ inside (a_named (texts_view labels.now) past) outside → self.new ≡ outside }
    {
        self.breaks.close(labels.len());
    }

    /// Where a break goes, or 0 where nothing is meant.
    pub fn break_address(&self, name: &'l Option<Text>) -> u32
        ensures { result ≡ address self.now.breaks (text_option name.now) }
    {
        address_in(&self.breaks, name)
    }

    /// .. and a continue.
    pub fn continue_address(&self, name: &'l Option<Text>) -> u32
        ensures { result ≡ address self.now.continues (text_option name.now) }
    {
        address_in(&self.continues, name)
    }
}

fn address_in<'l>(targets: &Targets<'l>, name: &'l Option<Text>) -> u32
    ensures { result ≡ address targets.now (text_option name.now) }
{
    match targets.find(label_of(name)) {
        Some(at) => at,
        None => 0,
    }
}

fn label_of<'l>(name: &'l Option<Text>) -> Option<&'l [u8]>
    ensures { bytes_option result ≡ text_option name.now }
{
    match name {
        Some(name) => Some(name.as_bytes()),
        None => None,
    }
}
