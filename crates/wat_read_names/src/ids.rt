//! The ids of a space, with their numbers.

ghost use Rattle.std.specs.Prelude.{◌≡◌, ◌+◌, ◌-◌, ◌^◌, ◌<◌, ◌++◌, ℕ, min, IfSome, option_and_then, List, None, Some, IfOk, replicate, unwrap_or, false, if◌then◌else◌};
ghost use Rattle.wat_lang.specs.Names as spec;
ghost use Rattle.wat_lang.specs.Numbers as numbers;
ghost use Rattle.wat_lang.specs.Rows.{is_out_32, known_use, is_unknown};
ghost use Rattle.wat_grammar.specs.Views.{mark_of};
ghost use Rattle.wat_marks.specs.Strings.{reads_string};
ghost use Rattle.wat_marks.specs.Views.{marked_of};
ghost use Rattle.wat_read_names.specs.Named.{name_of, names_in, names_behind, found};

use indexmap::IndexMap;
use key_hashes::{KeyHashes, NameKey};
use std::alloc::{AllocError, Global};
use std::marker::Model;
use wat_marks::MarkedToken;
use wat_read_tokens::{Between, atom, capped_in, is_id, is_number, is_out, natural_in};

/// The ids of a space by number: none for the first ones, and then those that are given, found by a map. Of equal ids the first
/// counts.
pub struct Ids<'a> {
    unnamed: usize,
    names: Vec<Option<&'a [u8]>>,
    places: IndexMap<NameKey<'a>, u32, KeyHashes>,
}

/// By hand, so that the end of the ids is one call wherever they are let go.
impl Drop for Ids<'_> {
    fn drop(self) {
        let Ids {
            unnamed: _,
            names: _,
            places: _,
        } = self;
    }
}

impl<'a> Model for Ids<'a> {
    ghost use Rattle.std.specs.Prelude.{◌≡◌, List, ℕ};
    ghost use Rattle.wat_lang.specs.Names as spec;
    ghost use Rattle.wat_read_names.specs.Named.{names_behind, found};

    ghost Value = { spec.Names };

    ghost view = { λ s. names_behind s.unnamed s.names.items };

    ghost invariant = { λ s. (n : List ℕ) → found s.places n ≡ spec.place_of_id n (names_behind s.unnamed s.names.items) };
}

/// The number of what stands at a place. More than 2^32 of them have no room.
fn number_at(unnamed: usize, i: usize) -> Result<u32, AllocError>
    ensures { IfOk result (λ n. n ≡ unnamed + i) }
{
    match unnamed.checked_add(i) {
        Some(place) if place < 4_294_967_296 => Ok(place as u32),
        _ => Err(AllocError),
    }
}

fn put<'a>(
    places: &mut IndexMap<NameKey<'a>, u32, KeyHashes>,
    name: Option<&'a [u8]>,
    place: u32,
) -> Result<(), AllocError>
    ensures { IfOk result (λ _. (n : List ℕ) → found places.new n ≡ (if spec.is_named n (name_of name.entry) then Some place else found places.old n)) }
{
    match name {
        None => Ok(()),
        Some(name) => {
            places.insert(NameKey::of(name), place)?;
            Ok(())
        }
    }
}

/// Later ids are put in first, so that an earlier one takes their place.
fn places_of<'a>(
    alloc: Global,
    hashes: KeyHashes,
    unnamed: usize,
    names: &[Option<&'a [u8]>],
) -> Result<IndexMap<NameKey<'a>, u32, KeyHashes>, AllocError>
    ensures { IfOk result (λ places. (n : List ℕ) → found places n ≡ spec.place_of_id n (names_behind unnamed names.now)) }
{
    let mut places = IndexMap::with_hasher(alloc, hashes);
    let mut i = names.len();
    while i > 0 {
        i -= 1;
        put(&mut places, names[i], number_at(unnamed, i)?)?;
    }
    Ok(places)
}

impl<'a> Ids<'a> {
    /// So many numbers that have no ids.
    pub fn unnamed(alloc: Global, hashes: KeyHashes, count: usize) -> Ids<'a>
        ensures { result ≡ replicate count None }
    {
        Ids {
            unnamed: count,
            names: Vec::new(alloc),
            places: IndexMap::with_hasher(alloc, hashes),
        }
    }

    /// These ids, behind so many numbers that have none.
    pub fn new(
        alloc: Global,
        hashes: KeyHashes,
        unnamed: usize,
        names: Vec<Option<&'a [u8]>>,
    ) -> Result<Ids<'a>, AllocError>
        ensures { IfOk result (λ ids. ids ≡ replicate unnamed None ++ names_in names.entry.items) }
    {
        let places = places_of(alloc, hashes, unnamed, names.as_slice())?;
        Ok(Ids {
            unnamed,
            names,
            places,
        })
    }

    /// The first number that has the id.
    pub fn place(&self, id: &[u8]) -> Option<u32>
        ensures place { result ≡ spec.place_of_id id.now self.now }
        ensures small { IfSome result (λ n. n < 2 ^ 32) }
    {
        match self.places.get(&NameKey::of(id)) {
            Some(place) => Some(*place),
            None => None,
        }
    }

    fn place_or_0(&self, id: &[u8]) -> u32
        ensures { result ≡ unwrap_or (spec.place_of_id id.now self.now) 0 }
    {
        match self.place(id) {
            Some(place) => place,
            None => 0,
        }
    }

    /// Whether it is an id that no number has.
    pub fn is_unknown(&self, token: &MarkedToken<'_>) -> bool
        requires { reads_string (mark_of token.now.mark) ≡ false }
        ensures { result ≡ is_unknown self.now (marked_of token.now) }
    {
        is_id(atom(token)) && self.place(atom(token)).is_none()
    }

    /// The number that a number or an id names, or 0 where there is none.
    pub fn number(&self, token: &MarkedToken<'_>) -> u32
        requires text { reads_string (mark_of token.now.mark) ≡ false }
        requires fits { is_out_32 (numbers.number_of (spec.text_of (marked_of token.now))) ≡ false }
        ensures { result ≡ unwrap_or (spec.index_of self.now (spec.text_of (marked_of token.now))) 0 }
    {
        let text = atom(token);
        match natural_in(text) {
            Some(number) => number,
            None => self.place_or_0(text),
        }
    }

    /// The number that a number or an id names, if there is one below 2^32.
    pub fn known(&self, token: &MarkedToken<'_>) -> Option<u32>
        requires { reads_string (mark_of token.now.mark) ≡ false }
        ensures { result ≡ known_use (spec.index_of self.now (spec.text_of (marked_of token.now))) }
    {
        let text = atom(token);
        if is_number(text) {
            small_number(text)
        } else {
            self.place(text)
        }
    }

    /// The number that a number or an id names, or 2^64 - 1 where it is above that; 0 where there is none.
    pub fn capped(&self, token: &MarkedToken<'_>) -> u64
        requires { reads_string (mark_of token.now.mark) ≡ false }
        ensures { result ≡ min (unwrap_or (spec.index_of self.now (spec.text_of (marked_of token.now))) 0) (2 ^ 64 - 1) }
    {
        let text = atom(token);
        if is_number(text) {
            capped_in(text)
        } else {
            u64::from(self.place_or_0(text))
        }
    }
}

/// The number that is written, if it is a natural one below 2^32.
fn small_number(text: &[u8]) -> Option<u32>
    ensures { result ≡ known_use (option_and_then spec.natural (numbers.number_of text.now)) }
{
    if is_out(text, Between::Naturals) {
        None
    } else {
        natural_in(text)
    }
}
