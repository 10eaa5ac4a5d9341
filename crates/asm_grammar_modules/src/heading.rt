//! The texts of a module's heading.

ghost use Rattle.std.specs.Prelude.{◌≡◌, IfOk};
ghost use Rattle.sem_words.specs.Lists.{list_items};
ghost use Rattle.asm_lang.specs.Machine.{advance};
ghost use Rattle.asm_grammar_nodes.specs.Views.{heading_view, lexeme_view, name_option, names_view};
ghost use Rattle.asm_grammar_decls.specs.Parts.{heading_reading_view, name_text, params_view};
ghost use Rattle.asm_grammar_modules.specs.Readings.{heading_of, in_heading_view};

use asm_grammar_decls::{HeadingParams, HeadingReading, HeadingStep};
use asm_grammar_nodes::{Heading, Lexeme};
use sem_words::{List, Text};
use std::alloc::{AllocError, Global};

/// What one token did to a heading that is read in place.
#[derive(Drop)]
pub enum InHeading {
    On,
    /// The `{` was taken. In a box, so that the answer to each token is small.
    Done(Box<Heading>),
    Stuck,
}

/// The texts of the parameters.
fn params(alloc: Global, params: HeadingParams<'_>) -> Result<List<Text>, AllocError>
    ensures { IfOk result (λ r. names_view (list_items r) ≡ params_view params.entry) }
{
    let names = match params {
        HeadingParams::Zero => Vec::new(alloc),
        HeadingParams::One(a) => vec![in alloc; Text::from_bytes(alloc, a.text)?]?,
        HeadingParams::Two(a, b) => vec![in alloc;
            Text::from_bytes(alloc, a.text)?,
            Text::from_bytes(alloc, b.text)?,
        ]?,
        HeadingParams::Three(a, b, c) => vec![in alloc;
            Text::from_bytes(alloc, a.text)?,
            Text::from_bytes(alloc, b.text)?,
            Text::from_bytes(alloc, c.text)?,
        ]?,
    };
    Ok(List::from_vec(names))
}

fn name_of(alloc: Global, name: Option<Lexeme<'_>>) -> Result<Option<Text>, AllocError>
    ensures { IfOk result (λ r. name_option r ≡ name_text name.entry) }
{
    match name {
        None => Ok(None),
        Some(name) => Ok(Some(Text::from_bytes(alloc, name.text)?)),
    }
}

fn heading(
    alloc: Global,
    name: Option<Lexeme<'_>>,
    names: HeadingParams<'_>,
) -> Result<Heading, AllocError>
    ensures { IfOk result (λ r. heading_view r ≡ heading_of (name_text name.entry) (params_view names.entry)) }
{
    let name = name_of(alloc, name)?;
    let params = params(alloc, names)?;
    Ok(Heading { name, params })
}

/// Reads one token of the heading, in place.
#[inline(never)]
pub fn in_heading<'a>(
    alloc: Global,
    reading: &mut HeadingReading<'a>,
    token: &Lexeme<'a>,
) -> Result<InHeading, AllocError>
    ensures { IfOk result (λ r. in_heading_view r reading.new (lexeme_view token.now) ≡ advance (heading_reading_view reading.old) (lexeme_view token.now)) }
{
    match reading.feed(token) {
        HeadingStep::On(next) => {
            *reading = next;
            Ok(InHeading::On)
        }
        HeadingStep::Done(name, params) => match heading(alloc, name, params) {
            Ok(heading) => Ok(InHeading::Done(Box::new(alloc, heading)?)),
            Err(error) => Err(error),
        },
        HeadingStep::Stuck => Ok(InHeading::Stuck),
    }
}
