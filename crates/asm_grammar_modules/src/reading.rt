//! A module that is being read, token by token.

ghost use Rattle.std.specs.Prelude.{◌≡◌, [], IfOk};
ghost use Rattle.asm_lang.specs.Machine.{advance, at_globals, ends, goes, stops};
ghost use Rattle.asm_laws_height.specs.Peaks.{step_peak};
ghost use Rattle.asm_grammar_nodes.specs.Heights.{counted};
ghost use Rattle.asm_grammar_nodes.specs.Views.{heading_view, lexeme_view};
ghost use Rattle.asm_grammar_modules.specs.declared.ending.EndPlace.TheVariants as end_places;
ghost use Rattle.asm_grammar_modules.specs.declared.reading.Reading.TheVariants as readings;
ghost use Rattle.asm_grammar_modules.specs.Ends.{finished_view};
ghost use Rattle.asm_grammar_modules.specs.Readings.{module_fed_view, reading_view};

use crate::ending::{EndPlace, InEnd};
use crate::heading::{InHeading, in_heading};
use crate::module::{InModule, ModuleReading};
use crate::tall::TallModule;
use asm_grammar_decls::HeadingReading;
use asm_grammar_functions::functions_end_no_module;
use asm_grammar_nodes::{Class, Heading, Height, Lexeme};
use sem_words::List;
use std::alloc::{AllocError, Global};
use std::mem;

/// A module that is being read: what has been read, and what must come or may come next.
pub enum Reading<'a> {
    Heading(HeadingReading<'a>),
    Directive(Heading),
    Module(ModuleReading<'a>),
    End(Box<TallModule>, EndPlace),
}

/// By hand, so that the end of a module that is being read is one call wherever it is let go.
impl Drop for Reading<'_> {
    fn drop(self) {
        match self {
            Reading::Heading(_) => {}
            Reading::Directive(_) => {}
            Reading::Module(_) => {}
            Reading::End(_, _) => {}
        }
    }
}

/// What one token did to a module that is read in place.
#[derive(Clone, Copy)]
pub enum ModuleFed {
    On,
    /// The token can't come here.
    Stuck,
    /// The directive must come here.
    NoUseAsm,
}

/// Takes a heading out.
fn taken(alloc: Global, heading: &mut Heading) -> Heading
    ensures { result ≡ heading.old }
{
    let none = Heading {
        name: None,
        params: List::new(alloc),
    };
    mem::replace(heading, none)
}

impl<'a> Reading<'a> {
    /// The height of the highest node that may end at the last token.
    pub fn peak(&self) -> Height
        ensures { result.count ≡ counted (step_peak (reading_view self.now)) }
    {
        match self {
            Reading::Module(module) => module.peak(),
            Reading::End(whole, place) => place.peak(whole),
            _ => Height::none(),
        }
    }

    /// The module, where it may end here.
    pub fn finished(self) -> Option<TallModule>
        ensures { finished_view result ≡ stops (reading_view self.entry) }
    {
        functions_end_no_module();
        match self {
            Reading::End(whole, place) => place.finished(Box::into_inner(whole)),
            _ => None,
        }
    }

    /// Goes on with the directive. What happens once stands apart, so that a token needs no room for it.
    #[inline(never)]
    fn end_heading(&mut self, heading: Box<Heading>)
        ensures { self.new ≡ readings.Directive heading.value }
    {
        *self = Reading::Directive(Box::into_inner(heading));
    }

    /// Goes on after the directive.
    #[inline(never)]
    fn begin_module(&mut self, alloc: Global, heading: Heading)
        ensures { reading_view self.new ≡ goes (ends (at_globals (heading_view heading) [])) }
    {
        *self = Reading::Module(ModuleReading::new(alloc, heading));
    }

    /// Goes on with the module's end.
    #[inline(never)]
    fn end_exports(&mut self, whole: Box<TallModule>)
        ensures { self.new ≡ readings.End whole end_places.Ends }
    {
        *self = Reading::End(whole, EndPlace::Ends);
    }

    /// Reads one token.
    pub fn feed(&mut self, alloc: Global, token: &Lexeme<'a>) -> Result<ModuleFed, AllocError>
        ensures { IfOk result (λ r. module_fed_view r self.new (lexeme_view token.now) ≡ advance (reading_view self.old) (lexeme_view token.now)) }
    {
        match self {
            Reading::Heading(reading) => match in_heading(alloc, reading, token) {
                Ok(fed) => match fed {
                    InHeading::On => Ok(ModuleFed::On),
                    InHeading::Done(heading) => {
                        self.end_heading(heading);
                        Ok(ModuleFed::On)
                    }
                    InHeading::Stuck => Ok(ModuleFed::Stuck),
                },
                Err(error) => Err(error),
            },
            Reading::Directive(heading) => match token.class {
                Class::Directive => {
                    let heading = taken(alloc, heading);
                    self.begin_module(alloc, heading);
                    Ok(ModuleFed::On)
                }
                _ => Ok(ModuleFed::NoUseAsm),
            },
            Reading::Module(module) => match module.feed(alloc, token) {
                Ok(fed) => match fed {
                    InModule::On => Ok(ModuleFed::On),
                    InModule::Done(whole) => {
                        self.end_exports(whole);
                        Ok(ModuleFed::On)
                    }
                    InModule::Stuck => Ok(ModuleFed::Stuck),
                },
                Err(error) => Err(error),
            },
            Reading::End(_, place) => match place.feed(token) {
                InEnd::On => Ok(ModuleFed::On),
                InEnd::Stuck => Ok(ModuleFed::Stuck),
            },
        }
    }
}
