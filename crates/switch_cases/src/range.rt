//! The values of the cases of a switch.
ghost use Rattle.std.specs.Prelude.{◌≡◌, ◌<◌, ◌≤◌, ◌^◌, List, ℤ, length};
ghost use Rattle.asm_tree.specs.Views.{clauses_view};
ghost use Rattle.asm_lang_valid.specs.Typing as typing;
ghost use Rattle.asm2wasm_translation.specs.Bodies as code;
ghost use Rattle.switch_cases.specs.Cases.{value_before, range_of};

use asm_tree::Clause;

/// How many cases a switch has, and the least and the greatest of their values, both 0 where there is none.
#[derive(Clone, Copy)]
pub struct CaseRange {
    pub count: usize,
    pub low: i64,
    pub high: i64,
}

impl CaseRange {
    /// That of a switch.
    pub fn of(clauses: &[Clause]) -> CaseRange
        ensures exact { result ≡ range_of (typing.values (clauses_view clauses.now)) }
        ensures few { result.count ≤ length clauses.now }
    {
        let mut range = CaseRange {
            count: 0,
            low: 0,
            high: 0,
        };
        let mut i = clauses.len();
        while i > 0 {
            i -= 1;
            range = range.with(clauses[i].value);
        }
        range
    }

    // With one more clause before the others.
    fn with(self, value: Option<i64>) -> CaseRange
        requires { self.count < 2 ^ 63 }
        ensures { (vs : List ℤ) → self ≡ range_of vs → result ≡ range_of (value_before value vs) }
    {
        match value {
            None => self,
            Some(value) => {
                if self.count == 0 {
                    return CaseRange {
                        count: 1,
                        low: value,
                        high: value,
                    };
                }
                CaseRange {
                    count: self.count + 1,
                    low: lesser(value, self.low),
                    high: greater(value, self.high),
                }
            }
        }
    }

    /// How far the greatest value lies above the least.
    pub fn span(self) -> usize
        ensures { (vs : List ℤ) → self ≡ range_of vs → result ≡ code.span vs }
    {
        self.high.abs_diff(self.low) as usize
    }

    /// Whether the values lie close together.
    pub fn is_dense(self) -> bool
        ensures { (vs : List ℤ) → self ≡ range_of vs → result ≡ code.is_dense vs }
    {
        if self.count < 4 {
            return false;
        }
        self.span() / 3 < self.count
    }
}

fn lesser(a: i64, b: i64) -> i64
    ensures { result ≡ code.lesser a b }
{
    if b < a { b } else { a }
}

fn greater(a: i64, b: i64) -> i64
    ensures { result ≡ code.greater a b }
{
    if a < b { b } else { a }
}
