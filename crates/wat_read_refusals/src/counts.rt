//! Types past a limit.

ghost use Rattle.std.specs.Prelude.{◌≡◌, ◌-◌, ◌==◌, ◌&&◌, if◌then◌else◌};
ghost use Rattle.wat_lang.specs.Names as names;
ghost use Rattle.wat_lang.specs.Rows as spec;
ghost use Rattle.wat_read_tokens.specs.Marks.{marks_of};
ghost use Rattle.wat_read_refusals.specs.Joined.{join};

use crate::least::Least;
use wat_lang::{Part, Row};
use wat_marks::MarkedToken;
use wat_read_tokens::Wanted;

/// Whether something that counts has no room.
fn is_over(counts: bool, room: usize) -> bool
    ensures { result ≡ (counts && (room == 0)) }
{
    counts && room == 0
}

/// The room that is left behind something that counts.
pub fn room_after(counts: bool, room: usize) -> usize
    ensures { result ≡ (if counts then room - 1 else room) }
{
    if counts { room.saturating_sub(1) } else { room }
}

/// Notes the types of a part past the limit, where so many come before.
pub fn from_count(
    least: &mut Least,
    most: usize,
    before: usize,
    part: Part,
    parts: &[MarkedToken<'_>],
)
    ensures { least.new ≡ join least.old (spec.least (spec.from_count most before (names.all_with (names.types_part part) (marks_of parts.now)))) }
{
    let mut room = most.saturating_sub(before);
    for token in parts {
        let counts = Wanted::Type(part).is(token.mark);
        least.note(is_over(counts, room), Row::Limit, token.token.at);
        room = room_after(counts, room);
    }
}
