//! When one observation is below another.
ghost use Rattle.std.specs.Prelude.{◌≡◌, [], ◌∷◌, ◌↔◌, IsTrue, map};
ghost use Rattle.sem_words.specs.Lists.{text_bytes, list_items};
ghost use Rattle.sem_words.specs.Words.{trap_code};
ghost use Rattle.sem_words.specs.declared.word.Word.TheVariants.{W32};
ghost use Rattle.session_lang.specs.Observation.{trap_name, stopped, trapped, as_stop, IsPrefix, IsBelow};
ghost use Rattle.session_lang.specs.Views.{event_of, end_of, observation_of};

use crate::observation::{End, Event, Observation};
use sem_words::{List, Text, TrapKind, Word};

fn same_text(x: &Text, y: &Text) -> bool
    ensures { IsTrue result ↔ (text_bytes x.now ≡ text_bytes y.now) }
{
    x.as_bytes() == y.as_bytes()
}

fn same_words(x: &[Word], y: &[Word]) -> bool
    ensures { IsTrue result ↔ (x.now ≡ y.now) }
{
    if x.len() != y.len() {
        return false;
    }
    for i in 0..x.len() {
        if x[i] != y[i] {
            return false;
        }
    }
    true
}

// Whether both name the same call.
fn same_call(f: &Text, xs: &List<Word>, g: &Text, ys: &List<Word>) -> bool
    ensures { IsTrue result
        ↔ ((text_bytes f.now ≡ text_bytes g.now) × (list_items xs.now ≡ list_items ys.now)) }
{
    same_text(f, g) && same_words(xs.as_slice(), ys.as_slice())
}

fn same_event(x: &Event, y: &Event) -> bool
    ensures { IsTrue result ↔ (event_of x.now ≡ event_of y.now) }
{
    match (x, y) {
        (Event::Import(f, xs), Event::Import(g, ys)) => same_call(f, xs, g, ys),
        (Event::Result(v), Event::Result(w)) => v == w,
        (Event::Returned, Event::Returned) => true,
        _ => false,
    }
}

// Whether `whole` begins with `front`.
fn is_front(front: &[Event], whole: &[Event]) -> bool
    ensures { IsTrue result ↔ IsPrefix (map event_of front.now) (map event_of whole.now) }
{
    if whole.len() < front.len() {
        return false;
    }
    for i in 0..front.len() {
        if !same_event(&front[i], &whole[i]) {
            return false;
        }
    }
    true
}

fn same_events(x: &[Event], y: &[Event]) -> bool
    ensures { IsTrue result ↔ (map event_of x.now ≡ map event_of y.now) }
{
    x.len() == y.len() && is_front(x, y)
}

fn is_trap_name(name: &Text) -> bool
    ensures { IsTrue result ↔ (text_bytes name.now ≡ trap_name) }
{
    name.as_bytes() == b"$trap".as_slice()
}

// Whether these are the arguments of a call of the trap import that stands for the trap.
fn are_trap_args(args: &[Word], kind: TrapKind) -> bool
    ensures { IsTrue result ↔ (args.now ≡ W32 (trap_code kind) ∷ []) }
{
    match args {
        [Word::W32(code)] => *code == kind.code(),
        _ => false,
    }
}

// Whether the call of that import stands for the trap.
fn is_trap_call(name: &Text, args: &List<Word>, kind: TrapKind) -> bool
    ensures { IsTrue result
        ↔ (as_stop (stopped (text_bytes name.now) (list_items args.now)) ≡ as_stop (trapped kind)) }
{
    is_trap_name(name) && are_trap_args(args.as_slice(), kind)
}

// Whether two ends are the same, where a trap and the trap import are equal.
fn same_end(x: &End, y: &End) -> bool
    ensures { IsTrue result ↔ (as_stop (end_of x.now) ≡ as_stop (end_of y.now)) }
{
    match (x, y) {
        (End::Done, End::Done) => true,
        (End::Stopped(f, xs), End::Stopped(g, ys)) => same_call(f, xs, g, ys),
        (End::NoReply(f, xs), End::NoReply(g, ys)) => same_call(f, xs, g, ys),
        (End::Trap(j), End::Trap(k)) => j.code() == k.code(),
        (End::Trap(k), End::Stopped(f, xs)) => is_trap_call(f, xs, *k),
        (End::Stopped(f, xs), End::Trap(k)) => is_trap_call(f, xs, *k),
        _ => false,
    }
}

/// Whether `x` has ended and `y` has the same events, end and heap, or `x` hasn't ended and its
/// events are a prefix of those of `y`. A trap equals the call of the import `$trap` with its
/// number.
pub fn below(x: &Observation, y: &Observation) -> bool
    ensures { IsTrue result ↔ IsBelow (observation_of x.now) (observation_of y.now) }
{
    match (&x.end, &y.end) {
        (None, _) => is_front(x.events.as_slice(), y.events.as_slice()),
        (Some(_), None) => false,
        (Some(end), Some(other)) => {
            same_end(end, other)
                && same_events(x.events.as_slice(), y.events.as_slice())
                && same_text(&x.heap, &y.heap)
        }
    }
}
