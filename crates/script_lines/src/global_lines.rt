// The lines of a script that give values to globals, by their names.

ghost use Rattle.std.specs.Prelude.{◌≡◌, ℕ, List, Some, IfOk, map, take, if◌then◌else◌};
ghost use Rattle.std.specs.Str.{bytes_eq};
ghost use Rattle.sem_words.specs.Lists.{text_bytes};
ghost use Rattle.session_lang.specs.Views.{global_of};
ghost use Rattle.session_lang.specs.Fits as parts;
ghost use Rattle.script_lines.specs.GlobalLines as by_name;
ghost use Rattle.script_lines.specs.GlobalLines.{found, line_named};

use indexmap::IndexMap;
use key_hashes::{KeyHashes, Seed};
use sem_words::Text;
use session_lang::GlobalLine;
use std::alloc::{AllocError, Global};
use std::marker::Model;

/// The lines of globals, each found by its name. Of lines of one name the first counts.
#[derive(Drop)]
pub struct Lines<'a> {
    lines: &'a [GlobalLine],
    // the place of the first line of each name
    places: IndexMap<&'a [u8], usize, KeyHashes>,
}

impl<'a> Model for Lines<'a> {
    ghost use Rattle.std.specs.Prelude.{◌≡◌, ℕ, List, map};
    ghost use Rattle.session_lang.specs.Script.{GlobalPlain};
    ghost use Rattle.session_lang.specs.Views.{global_of};
    ghost use Rattle.script_lines.specs.GlobalLines.{found, line_named};

    ghost Value = { List GlobalPlain };

    ghost view = { λ s. map global_of s.lines.now };

    ghost invariant = { λ s. (n : List ℕ) → found s.places n ≡ line_named (map global_of s.lines.now) n };
}

impl<'a> Lines<'a> {
    /// The lines of a script.
    pub fn new(alloc: Global, lines: &'a [GlobalLine]) -> Result<Lines<'a>, AllocError>
        ensures { IfOk result (λ found. found ≡ map global_of lines.now) }
    {
        let places = places_of(alloc, lines)?;
        Ok(Lines { lines, places })
    }

    /// All lines, in order.
    pub fn as_slice(&self) -> &'a [GlobalLine]
        ensures { map global_of result.now ≡ self.now }
    {
        self.lines
    }

    // The place of the first line of a name.
    fn place(&self, name: &[u8]) -> Option<usize>
        ensures { result ≡ line_named self.now name.now }
    {
        match self.places.get(name) {
            Some(place) => Some(*place),
            None => None,
        }
    }

    /// Whether a line gives a value to this name.
    #[tactic(auto, using(crate::proofs::GlobalLines::given_place, crate::proofs::GlobalLines::given_nowhere))]
    pub fn is_given(&self, name: &[u8]) -> bool
        ensures { result ≡ parts.is_given self.now name.now }
    {
        match self.place(name) {
            Some(_) => true,
            None => false,
        }
    }

    /// Whether a line before this place does.
    #[tactic(auto, using(crate::proofs::GlobalLines::given_before, crate::proofs::GlobalLines::given_nowhere_before))]
    pub fn is_given_before(&self, place: usize, name: &[u8]) -> bool
        ensures { result ≡ parts.is_given (take place self.now) name.now }
    {
        match self.place(name) {
            Some(first) => first < place,
            None => false,
        }
    }

    /// The value that the first line of this name gives, if there is one.
    #[tactic(auto, using(crate::proofs::GlobalLines::value_here, crate::proofs::GlobalLines::value_nowhere, crate::proofs::GlobalLines::place_within))]
    pub fn given(&self, name: &[u8]) -> Option<i128>
        ensures { result ≡ by_name.given self.now name.now }
    {
        match self.place(name) {
            Some(place) => Some(self.lines[place].value),
            None => None,
        }
    }
}

// Hashers for the names of lines.
fn hashes_of(lines: &[GlobalLine]) -> KeyHashes {
    let mut seed = Seed::new();
    for line in lines {
        seed.add(line.name.as_bytes());
    }
    seed.hashes()
}

// Later lines are put in first, so that an earlier one takes their place.
fn places_of<'a>(
    alloc: Global,
    lines: &'a [GlobalLine],
) -> Result<IndexMap<&'a [u8], usize, KeyHashes>, AllocError>
    ensures { IfOk result (λ places. (n : List ℕ) → found places n ≡ line_named (map global_of lines.now) n) }
{
    let mut places = IndexMap::with_capacity_and_hasher(alloc, lines.len(), hashes_of(lines))?;
    let mut i = lines.len();
    while i > 0 {
        i -= 1;
        put(&mut places, &lines[i].name, i)?;
    }
    Ok(places)
}

fn put<'a>(
    places: &mut IndexMap<&'a [u8], usize, KeyHashes>,
    name: &'a Text,
    place: usize,
) -> Result<(), AllocError>
    ensures { IfOk result (λ _. (n : List ℕ) → found places.new n ≡ (if bytes_eq (text_bytes name.now) n then Some place else found places.old n)) }
{
    places.insert(name.as_bytes(), place)?;
    Ok(())
}
