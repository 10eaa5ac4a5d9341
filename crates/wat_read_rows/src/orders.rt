//! The order of fields, and their counts.

ghost use Rattle.std.specs.Prelude.{◌≡◌, ℕ, ◌-◌, ◌&&◌, ◌||◌, List, [], ◌∷◌, ◌++◌, false};
ghost use Rattle.wat_lang.specs.Rows as spec;
ghost use Rattle.wat_read_names.specs.Fields.{field_of};
ghost use Rattle.wat_lang.specs.Names as names;
ghost use Rattle.wat_read_refusals.specs.Joined.{join};
ghost use Rattle.wat_read_rows.specs.Ordered.{HasCount, HasOrder};
ghost use Rattle.wat_read_rows.specs.Single.{place_in, over_row};

use wat_lang::{FieldKind, Row, Space};
use wat_read_names::Field;
use wat_read_refusals::{Least, room_after};
use wat_read_tokens::same_space;

/// The most types.
const MOST_TYPES: usize = 10_000;

/// The most functions, with the imported ones.
const MOST_FUNCTIONS: usize = 80_000;

/// The most globals, with the imported ones.
const MOST_GLOBALS: usize = 220_000;

fn defines(kind: FieldKind) -> bool
    ensures { result ≡ spec.defines kind }
{
    matches!(
        kind,
        FieldKind::Func | FieldKind::Table | FieldKind::Memory | FieldKind::Global
    )
}

fn starts(kind: FieldKind) -> bool
    ensures { result ≡ spec.starts kind }
{
    matches!(kind, FieldKind::Start)
}

fn is_late(field: &Field<'_, '_>, defined: bool, started: bool) -> bool
    ensures { result ≡ ((names.is_import field.now.kind && defined) || (spec.starts field.now.kind && started)) }
{
    (field.is_import() && defined) || (starts(field.kind) && started)
}

fn or_defines(defined: bool, kind: FieldKind) -> bool
    ensures { result ≡ (defined || spec.defines kind) }
{
    defined || defines(kind)
}

fn or_starts(started: bool, kind: FieldKind) -> bool
    ensures { result ≡ (started || spec.starts kind) }
{
    started || starts(kind)
}

/// The place of what a field puts into the space.
fn place_in(space: Space, field: &Field<'_, '_>) -> Option<u64>
    ensures { result ≡ place_in space (names.entry_of (field_of field.now)) }
{
    match field.entry() {
        Some(entry) => {
            if same_space(space, entry.space) {
                Some(entry.at)
            } else {
                None
            }
        }
        None => None,
    }
}

fn note_over(least: &mut Least, room: usize, place: Option<u64>)
    ensures { (most before : ℕ) → room ≡ most - before → least.new ≡ join least.old (spec.least (over_row most before place)) }
{
    match place {
        Some(at) => least.note(room == 0, Row::Limit, at),
        None => {}
    }
}

/// How many more a space has room for, and the first that had none.
#[derive(Drop)]
struct Count {
    room: usize,
    least: Least,
}

impl Count {
    /// Nothing stands in the space, which has room for so many.
    fn new(most: usize) -> Count
        ensures { (space : Space) → HasCount result most space [] }
    {
        Count {
            room: most,
            least: Least::new(),
        }
    }

    /// Notes what a field puts into the space.
    fn note(&mut self, space: Space, field: &Field<'_, '_>)
        ensures { (most : ℕ) (fs : List names.Field) → HasCount self.old most space fs → HasCount self.new most space (fs ++ field_of field.now ∷ []) }
    {
        let place = place_in(space, field);
        note_over(&mut self.least, self.room, place);
        self.room = room_after(place.is_some(), self.room);
    }
}

/// The order of the fields so far, and how many stand in the spaces that have a limit.
#[derive(Drop)]
pub struct Orders {
    defined: bool,
    started: bool,
    order: Least,
    types: Count,
    functions: Count,
    globals: Count,
}

impl Orders {
    /// There are no fields.
    pub fn new() -> Orders
        ensures { HasOrder result [] }
    {
        Orders {
            defined: false,
            started: false,
            order: Least::new(),
            types: Count::new(MOST_TYPES),
            functions: Count::new(MOST_FUNCTIONS),
            globals: Count::new(MOST_GLOBALS),
        }
    }

    /// Notes an import behind what is defined, a second start, and types, functions and globals past their limits.
    pub fn note(&mut self, field: &Field<'_, '_>)
        ensures { (fs : List names.Field) → HasOrder self.old fs → HasOrder self.new (fs ++ field_of field.now ∷ []) }
    {
        let late = is_late(field, self.defined, self.started);
        self.order.note(late, Row::Order, field.at);
        self.defined = or_defines(self.defined, field.kind);
        self.started = or_starts(self.started, field.kind);
        self.types.note(Space::Type, field);
        self.functions.note(Space::Func, field);
        self.globals.note(Space::Global, field);
    }

    /// The first refusal by the order of the fields or by their counts.
    pub fn found(self) -> Least
        ensures { (fs : List names.Field) → HasOrder self fs → result ≡ spec.least (spec.order_rows false false fs ++ spec.count_rows fs) }
    {
        let mut least = self.order;
        least.join(self.types.least);
        least.join(self.functions.least);
        least.join(self.globals.least);
        least
    }
}
