//! Ids that nothing binds, and blocks that are too deep.

ghost use Rattle.std.specs.Prelude.{◌≡◌, OnOk, length, nat_le, false};
ghost use Rattle.wasm_lang.specs.Limits.{most_levels};
ghost use Rattle.wat_lang.specs.declared.fault.Row.TheVariants as rows;
ghost use Rattle.wat_lang.specs.Names.{labels_after, names_at};
ghost use Rattle.wat_lang.specs.Rows as spec;
ghost use Rattle.wat_grammar.specs.Views.{mark_of};
ghost use Rattle.wat_marks.specs.Strings.{reads_string};
ghost use Rattle.wat_marks.specs.Views.{marked_of};
ghost use Rattle.wat_read_names.specs.Bound.{space_names};
ghost use Rattle.wat_read_tokens.specs.Marks.{marks_of};
ghost use Rattle.wat_read_refusals.specs.Joined.{join};
ghost use Rattle.wat_read_rows.specs.Single.{use_row};
ghost use Rattle.wat_laws_kept.specs.Groups.{labels_behind};

use std::alloc::AllocError;
use wat_grammar::{Form, Mark};
use wat_lang::{Row, Space};
use wat_marks::MarkedToken;
use wat_read_labels::Labels;
use wat_read_names::{Ids, Spaces};
use wat_read_refusals::Least;

/// The most blocks that may be open.
const MOST_LEVELS: usize = 300_000;

fn is_unknown(
    spaces: &Spaces<'_>,
    locals: &Ids<'_>,
    labels: &Labels<'_>,
    space: Space,
    token: &MarkedToken<'_>,
) -> bool
    requires { reads_string (mark_of token.now.mark) ≡ false }
    ensures { result ≡ spec.is_unknown (names_at (space_names spaces.now) locals.now labels.now space) (marked_of token.now) }
{
    match space {
        Space::Type => spaces.types.is_unknown(token),
        Space::Func => spaces.functions.is_unknown(token),
        Space::Table => spaces.tables.is_unknown(token),
        Space::Memory => spaces.memories.is_unknown(token),
        Space::Global => spaces.globals.is_unknown(token),
        Space::Local => locals.is_unknown(token),
        Space::Label => labels.is_unknown(token),
        Space::Elem => spaces.elements.is_unknown(token),
        Space::Data => spaces.segments.is_unknown(token),
    }
}

/// Notes a use that nothing binds.
fn note_unknown(
    least: &mut Least,
    spaces: &Spaces<'_>,
    locals: &Ids<'_>,
    labels: &Labels<'_>,
    space: Space,
    token: &MarkedToken<'_>,
)
    requires { reads_string (mark_of token.now.mark) ≡ false }
    ensures { least.new ≡ join least.old (spec.least (spec.where_holds (spec.is_unknown (names_at (space_names spaces.now) locals.now labels.now space) (marked_of token.now)) rows.IdUnknown token.now.token.at)) }
{
    let unknown = is_unknown(spaces, locals, labels, space, token);
    least.note(unknown, Row::IdUnknown, token.token.at);
}

/// Notes a block past the limit. It is open behind the token.
fn open_block<'a>(
    least: &mut Least,
    labels: &mut Labels<'a>,
    token: &MarkedToken<'a>,
) -> Result<(), AllocError>
    ensures noted { OnOk result (least.new ≡ join least.old (spec.least (spec.where_holds (nat_le most_levels (length labels.old)) rows.Limit token.now.token.at))) }
    ensures labels { OnOk result (labels.new ≡ labels_after labels.old (marked_of token.now)) }
{
    let deep = MOST_LEVELS <= labels.len();
    least.note(deep, Row::Limit, token.token.at);
    labels.after(token)
}

/// Notes the row of a token's use. Most tokens neither use an id nor open, close or name a block.
fn use_row<'a>(
    least: &mut Least,
    spaces: &Spaces<'_>,
    locals: &Ids<'_>,
    labels: &mut Labels<'a>,
    token: &MarkedToken<'a>,
) -> Result<(), AllocError>
    ensures noted { OnOk result (least.new ≡ join least.old (spec.least (use_row (names_at (space_names spaces.now) locals.now) labels.old (marked_of token.now)))) }
    ensures labels { OnOk result (labels.new ≡ labels_after labels.old (marked_of token.now)) }
{
    match token.mark {
        Mark::Uses(space) => {
            note_unknown(least, spaces, locals, labels, space, token);
            Ok(())
        }
        Mark::TypeUse => {
            note_unknown(least, spaces, locals, labels, Space::Type, token);
            Ok(())
        }
        Mark::Instruction(Form::Block | Form::Loop | Form::If) => open_block(least, labels, token),
        Mark::Instruction(Form::End) => labels.after(token),
        Mark::Binds(Space::Label) => labels.after(token),
        _ => Ok(()),
    }
}

/// Notes the ids of tokens that nothing binds, and the blocks past the limit, where these labels are open; then those behind the tokens are.
pub fn use_rows<'a>(
    least: &mut Least,
    spaces: &Spaces<'_>,
    locals: &Ids<'_>,
    labels: &mut Labels<'a>,
    parts: &[MarkedToken<'a>],
) -> Result<(), AllocError>
    ensures noted { OnOk result (least.new ≡ join least.old (spec.least (spec.use_rows (names_at (space_names spaces.now) locals.now) labels.old (marks_of parts.now)))) }
    ensures labels { OnOk result (labels.new ≡ labels_behind labels.old (marks_of parts.now)) }
{
    for token in parts {
        use_row(least, spaces, locals, labels, token)?;
    }
    Ok(())
}
