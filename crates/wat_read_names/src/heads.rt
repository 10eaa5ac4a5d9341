//! The ids of parameters and locals.

ghost use Rattle.std.specs.Prelude.{◌≡◌, ◌-◌, ◌^◌, ◌++◌, IfOk, OnOk, IfSome, None, replicate, length, min, unwrap_or, ◌==◌, if◌then◌else◌};
ghost use Rattle.wat_lang.specs.Names as spec;
ghost use Rattle.wat_lang.specs.declared.parts.Space.TheVariants as spaces;
ghost use Rattle.wat_lang.specs.Rows.{known_use};
ghost use Rattle.wat_grammar.specs.Views.{mark_of};
ghost use Rattle.wat_marks.specs.Views.{marked_of};
ghost use Rattle.wat_read_tokens.specs.Marks.{marks_of, only};
ghost use Rattle.wat_read_names.specs.Named.{name_of, names_in};
ghost use Rattle.wat_read_names.specs.Counted.{HasCounts};

use crate::ids::Ids;
use key_hashes::KeyHashes;
use std::alloc::{AllocError, Global};
use wat_grammar::Mark;
use wat_lang::{Part, Space};
use wat_marks::MarkedToken;
use wat_read_tokens::{Wanted, atom, first};

/// An id stands before the type that it names.
fn id_after<'a>(id: Option<&'a [u8]>, token: &MarkedToken<'a>) -> Option<&'a [u8]>
    ensures { name_of result ≡ spec.id_after (name_of id.entry) (marked_of token.now) }
{
    match token.mark {
        Mark::Binds(Space::Local) => Some(atom(token)),
        Mark::Type(_) => None,
        _ => id,
    }
}

fn push_id<'a>(
    names: &mut Vec<Option<&'a [u8]>>,
    part: Part,
    id: Option<&'a [u8]>,
    token: &MarkedToken<'a>,
) -> Result<(), AllocError>
    ensures { OnOk result (names_in names.new.items ≡ names_in names.old.items ++ only (spec.types_part part (marked_of token.now).mark) (name_of id.entry)) }
{
    if !Wanted::Type(part).is(token.mark) {
        return Ok(());
    }
    names.push(id)?;
    Ok(())
}

/// Appends the ids of the parameters or of the locals that are written.
fn push_ids<'a>(
    names: &mut Vec<Option<&'a [u8]>>,
    part: Part,
    parts: &[MarkedToken<'a>],
) -> Result<(), AllocError>
    ensures { OnOk result (names_in names.new.items ≡ names_in names.old.items ++ spec.written_ids part None (marks_of parts.now)) }
{
    let mut id = None;
    for token in parts {
        push_id(names, part, id, token)?;
        id = id_after(id, token);
    }
    Ok(())
}

/// How many parameters have no id since none are written.
fn unnamed_of(written: &[Option<&[u8]>], params: usize) -> usize
    ensures { result ≡ (if length written.now == 0 then params else 0) }
{
    if written.is_empty() { params } else { 0 }
}

fn binds_local(mark: Mark) -> bool
    ensures { result ≡ spec.binds_in spaces.Local (mark_of mark) }
{
    Wanted::Binds(Space::Local).is(mark)
}

/// How many types of the part a token with the mark writes.
fn count_of(part: Part, mark: Mark) -> usize
    ensures { result ≡ (if spec.types_part part (mark_of mark) then 1 else 0) }
{
    if Wanted::Type(part).is(mark) { 1 } else { 0 }
}

/// How many parameters and locals are written.
#[derive(Clone, Copy)]
struct Counts {
    params: usize,
    locals: usize,
}

/// How many parameters and locals are written, or nothing where one has an id.
fn counts_of(parts: &[MarkedToken<'_>]) -> Option<Counts>
    ensures { IfSome result (λ n. HasCounts n (marks_of parts.now)) }
{
    let mut params = 0;
    let mut locals = 0;
    for token in parts {
        if binds_local(token.mark) {
            return None;
        }
        params += count_of(Part::Param, token.mark);
        locals += count_of(Part::Local, token.mark);
    }
    Some(Counts { params, locals })
}

impl Counts {
    /// The parameters of a function whose type has so many: those that are written, unless none are.
    fn params_or(self, params: usize) -> usize
        ensures { result ≡ (if self.params == 0 then params else self.params) }
    {
        if self.params == 0 {
            params
        } else {
            self.params
        }
    }
}

/// How many parameters and locals a function has whose type has so many parameters, or nothing where one has an id.
fn unnamed_in(params: usize, parts: &[MarkedToken<'_>]) -> Option<usize>
    ensures { IfSome result (λ n. spec.local_names params (marks_of parts.now) ≡ replicate n None) }
{
    match counts_of(parts) {
        Some(counts) => counts.params_or(params).checked_add(counts.locals),
        None => None,
    }
}

/// The parameters, and the locals behind them, by their ids.
fn named_locals<'a>(
    alloc: Global,
    hashes: KeyHashes,
    params: usize,
    parts: &[MarkedToken<'a>],
) -> Result<Ids<'a>, AllocError>
    ensures { IfOk result (λ ids. ids ≡ spec.local_names params (marks_of parts.now)) }
{
    let mut names = Vec::new(alloc);
    push_ids(&mut names, Part::Param, parts)?;
    let unnamed = unnamed_of(names.as_slice(), params);
    push_ids(&mut names, Part::Local, parts)?;
    let ids = Ids::new(alloc, hashes, unnamed, names)?;
    Ok(ids)
}

/// The parameters, and the locals behind them, of a function whose type has so many parameters.
pub fn local_names<'a>(
    alloc: Global,
    hashes: KeyHashes,
    params: usize,
    parts: &[MarkedToken<'a>],
) -> Result<Ids<'a>, AllocError>
    ensures { IfOk result (λ ids. ids ≡ spec.local_names params (marks_of parts.now)) }
{
    match unnamed_in(params, parts) {
        Some(count) => Ok(Ids::unnamed(alloc, hashes, count)),
        None => named_locals(alloc, hashes, params, parts),
    }
}

/// The number of the type that a function names, if it has one below 2^32.
pub fn known_use(types: &Ids<'_>, parts: &[MarkedToken<'_>]) -> Option<u32>
    ensures { result ≡ known_use (spec.type_use types.now (marks_of parts.now)) }
{
    match first(parts, Wanted::TypeUse) {
        Some(token) => types.known(token),
        None => None,
    }
}

/// The number of the type that a function names, or 2^64 - 1 where it is above that; 0 where it names none.
pub fn capped_use(types: &Ids<'_>, parts: &[MarkedToken<'_>]) -> u64
    ensures { result ≡ min (unwrap_or (spec.type_use types.now (marks_of parts.now)) 0) (2 ^ 64 - 1) }
{
    match first(parts, Wanted::TypeUse) {
        Some(token) => types.capped(token),
        None => 0,
    }
}
