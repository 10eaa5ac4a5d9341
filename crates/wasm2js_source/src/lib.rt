//! From WebAssembly to asm.js: each valid module in the profile can be translated.
#![tactic(auto)]

ghost use Rattle.std.specs.Prelude.{◌≡◌, ◌<◌, None, All, map};
ghost use Rattle.wasm_lang.specs.Shape.{IsShaped};
ghost use Rattle.wasm_lang_valid.specs.Profile.{outside_profile};
ghost use Rattle.wasm_laws_sound.specs.Laws.{IsWhole};
ghost use Rattle.wasm_tree.specs.Views.{body_of, code_of, global_of, instr_of, module_of, segment_of};
ghost use Rattle.wasm2js_laws_acceptance.specs.FunctionsFunctions.{HasWord, IsSource};
ghost use Rattle.wasm2js_laws_acceptance.specs.AcceptedLaws.{HaveFirstWords};

use wasm_tree::{Body, Code, GlobalDef, Instr, Module, Segment};
use wasm_validate::Valid;

/// A valid module in the profile is one that can be translated: its constants are words and its segments bytes.
pub fn source(valid: &Valid<'_>)
    requires { outside_profile valid.now ≡ None }
    ensures source { IsSource valid.now }
    ensures first { HaveFirstWords valid.now }
{
    let module = whole_module(valid);
    words_of_bodies(module.bodies.as_slice());
    words_of_globals(module.globals.as_slice());
    bytes_of_segments(module.segments.as_slice());
}

// The module, of which each function has a body.
#[tactic(auto, using(crate::proofs::Words::shaped_whole))]
fn whole_module<'a>(valid: &'a Valid<'_>) -> &'a Module<'a>
    ensures given { module_of result.now ≡ valid.now }
    ensures whole { IsWhole valid.now }
    ensures shaped { IsShaped valid.now }
{
    valid.module()
}

fn words_of_bodies(bodies: &[Body<'_>])
    ensures { All (λ b. All HasWord b.code) (map body_of bodies.now) }
{
    for body in bodies {
        words_of_code(&body.code);
    }
}

fn words_of_globals(globals: &[GlobalDef])
    ensures { All (λ g. All HasWord g.init) (map global_of globals.now) }
{
    for global in globals {
        words_of_list(global.init.as_slice());
    }
}

fn bytes_of_segments(segments: &[Segment<'_>])
    ensures { All (λ s. All (λ b. b < 256) s.bytes) (map segment_of segments.now) }
{
    for segment in segments {
        are_bytes(segment.bytes.as_bytes());
    }
}

// Each of a slice's bytes is below 256.
fn are_bytes(bytes: &[u8])
    ensures { All (λ b. b < 256) bytes.now }
{}

// Lent bytes spell words.
#[tactic(auto, using(crate::proofs::Words::spelled_words))]
fn words_of_code(code: &Code<'_>)
    ensures { All HasWord (code_of code.now) }
{
    match code {
        Code::Lent(bytes) => are_bytes(bytes),
        Code::Own(list) => words_of_list(list.as_slice()),
    }
}

fn words_of_list(list: &[Instr])
    ensures { All HasWord (map instr_of list.now) }
{
    for instr in list {
        word_of(instr);
    }
}

// A constant is read, since that tells its range.
fn word_of(instr: &Instr)
    ensures { HasWord (instr_of instr.now) }
{
    match instr {
        Instr::Const32(word) => {
            let _word = *word;
        }
        Instr::Const64(word) => {
            let _word = *word;
        }
        _ => {}
    }
}
