//! The register of refusals: it keeps the first by place, then by number.

ghost use Rattle.std.specs.Prelude.{◌≡◌, None, Some, option_map};
ghost use Rattle.wat_lang.specs.Rows as spec;
ghost use Rattle.wat_read_refusals.specs.Joined.{join, refusal_of};

use std::marker::Model;
use wat_lang::{Row, row_number};

/// A row that refuses the text, and the offset of its place.
#[derive(Clone, Copy)]
pub struct Refusal {
    pub row: Row,
    pub at: u64,
}

/// The first refusal that was noted, by place, then by number.
#[derive(Drop)]
pub struct Least {
    found: Option<Refusal>,
}

impl Model for Least {
    ghost use Rattle.std.specs.Prelude.{Option, option_map};
    ghost use Rattle.wat_lang.specs.Rows as spec;
    ghost use Rattle.wat_read_refusals.specs.Joined.{refusal_of};

    ghost Value = { Option spec.Refusal };

    ghost view = { λ s. option_map refusal_of s.found };
}

/// Whether the first comes before the second.
fn is_before(a: Refusal, b: Refusal) -> bool
    ensures { result ≡ spec.is_before (refusal_of a) (refusal_of b) }
{
    a.at < b.at || (a.at <= b.at && row_number(a.row) < row_number(b.row))
}

fn lesser(a: Option<Refusal>, b: Refusal) -> Refusal
    ensures { Some (refusal_of result) ≡ join (option_map refusal_of a) (Some (refusal_of b)) }
{
    match a {
        None => b,
        Some(a) => { if is_before(b, a) { b } else { a } }
    }
}

impl Least {
    /// Nothing was noted.
    pub fn new() -> Least
        ensures { result ≡ None }
    {
        Least { found: None }
    }

    /// Notes the row at the place, if it holds.
    pub fn note(&mut self, holds: bool, row: Row, at: u64)
        ensures { self.new ≡ join self.old (spec.least (spec.where_holds holds row at)) }
    {
        if holds {
            self.found = Some(lesser(self.found, Refusal { row, at }));
        }
    }

    #[tactic(auto, using(crate::proofs::Joins::join_none))]
    /// Notes the first refusal of another register.
    pub fn join(&mut self, other: Least)
        ensures { self.new ≡ join self.old other }
    {
        match other.found {
            Some(refusal) => self.found = Some(lesser(self.found, refusal)),
            None => {}
        }
    }

    /// The first refusal.
    pub fn found(self) -> Option<Refusal>
        ensures { option_map refusal_of result ≡ self }
    {
        self.found
    }
}
