//! A module that is being read, after its directive and before its end.

ghost use Rattle.std.specs.Prelude.{◌≡◌, [], ◌∷◌, ◌++◌, IfOk, OnOk, List as Items};
ghost use Rattle.asm_lang.specs.Trees.{Heading as PlainHeading, VariableTree as PlainVariable};
ghost use Rattle.asm_lang.specs.Lexemes.{Lexeme as PlainLexeme};
ghost use Rattle.asm_lang.specs.Machine.{advance, at_globals, ends, goes};
ghost use Rattle.asm_laws_height.specs.Peaks.{step_peak};
ghost use Rattle.asm_grammar_nodes.specs.Heights.{counted};
ghost use Rattle.asm_grammar_nodes.specs.Views.{heading_view, lexeme_view};
ghost use Rattle.asm_grammar_functions.specs.Bodies.{functions_of, tall_function_view};
ghost use Rattle.asm_grammar_modules.specs.Readings.{function_begun, function_place, functions_place, in_function_view, in_module_view, in_outside_view, module_ended, module_reading_view, outside_view};

use crate::outside::{Next, Outside, step};
use crate::parts::Parts;
use crate::tall::TallModule;
use asm_grammar_functions::{FunctionFed, FunctionReading, TallFunction, TallFunctions};
use asm_grammar_nodes::{ExportsTree, Heading, Height, Lexeme};
use asm_grammar_outside::GlobalPlace;
use std::alloc::{AllocError, Global};
use std::mem;

/// What must come or may come next.
pub enum Place<'a> {
    Outside(Outside<'a>),
    Function(FunctionReading<'a>),
}

/// By hand, so that its end is one call wherever it is let go.
impl Drop for Place<'_> {
    fn drop(self) {
        match self {
            Place::Outside(_) => {}
            Place::Function(_) => {}
        }
    }
}

/// What has been read of a module, and what must come or may come next.
pub struct ModuleReading<'a> {
    pub parts: Parts,
    pub place: Place<'a>,
}

impl Drop for ModuleReading<'_> {
    fn drop(self) {
        let ModuleReading { parts: _, place: _ } = self;
    }
}

/// What one token did to a module that is read in place.
#[derive(Drop)]
pub enum InModule {
    On,
    /// The exports have ended, and the module is taken out. In a box, so that the answer to each token is small.
    Done(Box<TallModule>),
    Stuck,
}

/// What one token did outside functions, in place.
#[derive(Drop)]
pub enum InOutside {
    On,
    /// The `function` of a function was taken.
    Function,
    /// The exports have ended.
    Done(Box<ExportsTree>),
    Stuck,
}

/// What one token did to a function that is read in place, with the functions before it.
#[derive(Clone, Copy)]
pub enum InFunction {
    On,
    /// The function has ended, and stands at the end of the functions.
    Done,
    Stuck,
}

/// Reads one token of a function, in place.
fn in_function<'a>(
    alloc: Global,
    functions: &mut TallFunctions,
    reading: &mut FunctionReading<'a>,
    token: &Lexeme<'a>,
) -> Result<InFunction, AllocError>
    ensures { IfOk result (λ r. (h : PlainHeading) (gs : Items PlainVariable) → in_function_view r reading.new h gs (functions_of functions.new) (lexeme_view token.now) ≡ advance (function_place reading.old h gs (functions_of functions.old)) (lexeme_view token.now)) }
{
    match reading.feed(alloc, token)? {
        FunctionFed::On => Ok(InFunction::On),
        FunctionFed::Done(function) => {
            keep(functions, function)?;
            Ok(InFunction::Done)
        }
        FunctionFed::Stuck => Ok(InFunction::Stuck),
    }
}

/// Puts a function at the end of the functions.
#[inline(never)]
fn keep(functions: &mut TallFunctions, function: Box<TallFunction>) -> Result<(), AllocError>
    ensures { OnOk result (functions_of functions.new ≡ functions_of functions.old ++ tall_function_view function.value ∷ []) }
{
    functions.push(Box::into_inner(function))
}

/// Reads one token outside functions, in place.
#[inline(never)]
fn in_outside<'a>(
    alloc: Global,
    parts: &mut Parts,
    place: &mut Outside<'a>,
    token: &Lexeme<'a>,
) -> Result<InOutside, AllocError>
    ensures { IfOk result (λ r. in_outside_view r place.new parts.new (lexeme_view token.now) ≡ advance (outside_view place.old parts.old) (lexeme_view token.now)) }
{
    let old = mem::replace(place, Outside::Functions);
    match step(alloc, parts, old, token) {
        Ok(step) => match step {
            Next::On(next) => {
                *place = next;
                Ok(InOutside::On)
            }
            Next::Function => Ok(InOutside::Function),
            Next::Done(exports) => Ok(InOutside::Done(Box::new(alloc, exports)?)),
            Next::Stuck => Ok(InOutside::Stuck),
        },
        Err(error) => Err(error),
    }
}

impl<'a> ModuleReading<'a> {
    /// After the directive.
    pub fn new(alloc: Global, heading: Heading) -> ModuleReading<'a>
        ensures { module_reading_view result ≡ goes (ends (at_globals (heading_view heading) [])) }
    {
        let parts = Parts::new(alloc, heading);
        let place = Place::Outside(Outside::Global(GlobalPlace::Ends));
        ModuleReading { parts, place }
    }

    /// The height of the highest node that may end at the last token.
    pub fn peak(&self) -> Height
        ensures { result.count ≡ counted (step_peak (module_reading_view self.now)) }
    {
        match &self.place {
            Place::Outside(Outside::Functions) => self.parts.functions.last,
            Place::Function(reading) => reading.peak(),
            _ => Height::none(),
        }
    }

    /// Goes on after a function. What happens once for each function stands apart, so that a token within one needs no room for it.
    #[inline(never)]
    fn end_function(&mut self)
        ensures { module_reading_view self.new ≡ functions_place self.old.parts }
    {
        self.place = Place::Outside(Outside::Functions);
    }

    /// Goes on with a function.
    #[inline(never)]
    fn begin_function(&mut self)
        ensures { module_reading_view self.new ≡ function_begun self.old.parts }
    {
        self.place = Place::Function(FunctionReading::Name);
    }

    /// The module with these exports, whose other parts are taken out.
    #[inline(never)]
    fn ended(&mut self, alloc: Global, exports: Box<ExportsTree>) -> Result<InModule, AllocError>
        ensures { IfOk result (λ r. (t : PlainLexeme) → in_module_view r self.new t ≡ module_ended self.old.parts exports.value) }
    {
        let whole = self.parts.taken(alloc).whole(Box::into_inner(exports));
        Ok(InModule::Done(Box::new(alloc, whole)?))
    }

    /// Reads one token.
    pub fn feed(&mut self, alloc: Global, token: &Lexeme<'a>) -> Result<InModule, AllocError>
        ensures { IfOk result (λ r. in_module_view r self.new (lexeme_view token.now) ≡ advance (module_reading_view self.old) (lexeme_view token.now)) }
    {
        match &mut self.place {
            Place::Function(reading) => {
                match in_function(alloc, &mut self.parts.functions, reading, token)? {
                    InFunction::On => Ok(InModule::On),
                    InFunction::Done => {
                        self.end_function();
                        Ok(InModule::On)
                    }
                    InFunction::Stuck => Ok(InModule::Stuck),
                }
            }
            Place::Outside(place) => match in_outside(alloc, &mut self.parts, place, token)? {
                InOutside::On => Ok(InModule::On),
                InOutside::Function => {
                    self.begin_function();
                    Ok(InModule::On)
                }
                InOutside::Done(exports) => self.ended(alloc, exports),
                InOutside::Stuck => Ok(InModule::Stuck),
            },
        }
    }
}
