//! Terms over words of 32 bits, which stand on the machine's stack while a statement is built, and take no memory.
ghost use Rattle.std.specs.Prelude.{◌≡◌, true, false};
ghost use Rattle.wasm2js_translation.specs.Words as words;
ghost use Rattle.wasm2js_translation.specs.Words.{no_more, further};
ghost use Rattle.wasm2js_translation.specs.Pairs as pairs;
ghost use Rattle.wasm2js_nodes.specs.Names.{name_view};
ghost use Rattle.wasm2js_terms.specs.Views.{bit_view, relation_view, term_view};

use wasm2js_nodes::Name;

/// An operator on the bits of two words; a count of a shift counts modulo 32.
#[derive(Clone, Copy, PartialEq, Eq, Debug)]
pub enum BitOp {
    And,
    Or,
    Xor,
    Shl,
    /// `>>`
    Sar,
    /// `>>>`
    Shr,
}

#[derive(Clone, Copy, PartialEq, Eq, Debug)]
pub enum Relation {
    Equal,
    Unequal,
    Less,
    AtMost,
    Greater,
    AtLeast,
}

/// A word; a truth value is 1 or 0.
#[derive(Clone, Copy)]
pub enum Term<'a> {
    /// Of a variable.
    Read(Name),
    /// A literal of asm.js.
    Number(i64),
    Both(BitOp, &'a Term<'a>, &'a Term<'a>),
    /// Of a word and a literal.
    BothNumber(BitOp, &'a Term<'a>, i64),
    /// Of two variables.
    BothRead(BitOp, Name, Name),
    Flip(&'a Term<'a>),
    /// A sum, or with a mark a difference.
    SumOfTwo(&'a Term<'a>, bool, &'a Term<'a>),
    SumOfThree(&'a Term<'a>, bool, &'a Term<'a>, bool, &'a Term<'a>),
    /// A sum of a word and a literal, or with a mark their difference.
    SumNumber(&'a Term<'a>, bool, i64),
    /// A sum of two variables, or with a mark their difference.
    SumRead(Name, bool, Name),
    SumOfFour(&'a Term<'a>, &'a Term<'a>, &'a Term<'a>, &'a Term<'a>),
    Product(&'a Term<'a>, &'a Term<'a>),
    /// How many leading bits are 0.
    Zeros(&'a Term<'a>),
    /// Of signed numbers, or not.
    Compare(bool, Relation, &'a Term<'a>, &'a Term<'a>),
    /// A word with a literal.
    CompareNumber(bool, Relation, &'a Term<'a>, i64),
    /// Two variables.
    CompareRead(bool, Relation, Name, Name),
    /// By a test, the first or the second.
    Choose(&'a Term<'a>, &'a Term<'a>, &'a Term<'a>),
    /// Of the heap, with its sign or not, at this place.
    Byte(bool, &'a Term<'a>),
    /// Four bytes of the heap, at a place that is a multiple of four.
    Whole(&'a Term<'a>),
}

impl<'a> Term<'a> {
    #[tactic(auto, using(crate::proofs::Views::terms))]
    pub fn read(name: Name) -> Term<'a>
        ensures { term_view result ≡ words.read (name_view name) }
    {
        Term::Read(name)
    }

    #[tactic(auto, using(crate::proofs::Views::terms))]
    pub fn number(value: i64) -> Term<'a>
        ensures { term_view result ≡ words.number value }
    {
        Term::Number(value)
    }

    #[tactic(auto, using(crate::proofs::Views::terms))]
    pub fn both(op: BitOp, a: &'a Term<'a>, b: &'a Term<'a>) -> Term<'a>
        ensures { term_view result ≡ words.both (bit_view op) (term_view a.now) (term_view b.now) }
    {
        Term::Both(op, a, b)
    }

    /// Of a word and a literal.
    #[tactic(auto, using(crate::proofs::Views::terms))]
    pub fn both_number(op: BitOp, a: &'a Term<'a>, value: i64) -> Term<'a>
        ensures { term_view result ≡ words.both (bit_view op) (term_view a.now) (words.number value) }
    {
        Term::BothNumber(op, a, value)
    }

    /// Of two variables.
    #[tactic(auto, using(crate::proofs::Views::terms))]
    pub fn both_read(op: BitOp, a: Name, b: Name) -> Term<'a>
        ensures { term_view result ≡ words.both (bit_view op) (words.read (name_view a)) (words.read (name_view b)) }
    {
        Term::BothRead(op, a, b)
    }

    #[tactic(auto, using(crate::proofs::Views::terms))]
    pub fn flip(a: &'a Term<'a>) -> Term<'a>
        ensures { term_view result ≡ words.flip (term_view a.now) }
    {
        Term::Flip(a)
    }

    /// `a+b`
    #[tactic(auto, using(crate::proofs::Views::terms))]
    pub fn plus(a: &'a Term<'a>, b: &'a Term<'a>) -> Term<'a>
        ensures { term_view result ≡ pairs.plus (term_view a.now) (term_view b.now) }
    {
        Term::SumOfTwo(a, false, b)
    }

    /// `a-b`
    #[tactic(auto, using(crate::proofs::Views::terms))]
    pub fn minus(a: &'a Term<'a>, b: &'a Term<'a>) -> Term<'a>
        ensures { term_view result ≡ pairs.minus (term_view a.now) (term_view b.now) }
    {
        Term::SumOfTwo(a, true, b)
    }

    /// `a+value`
    #[tactic(auto, using(crate::proofs::Views::terms))]
    pub fn plus_number(a: &'a Term<'a>, value: i64) -> Term<'a>
        ensures { term_view result ≡ pairs.plus (term_view a.now) (words.number value) }
    {
        Term::SumNumber(a, false, value)
    }

    /// `a-value`
    #[tactic(auto, using(crate::proofs::Views::terms))]
    pub fn minus_number(a: &'a Term<'a>, value: i64) -> Term<'a>
        ensures { term_view result ≡ pairs.minus (term_view a.now) (words.number value) }
    {
        Term::SumNumber(a, true, value)
    }

    /// `a+b`, of two variables
    #[tactic(auto, using(crate::proofs::Views::terms))]
    pub fn plus_read(a: Name, b: Name) -> Term<'a>
        ensures { term_view result ≡ pairs.plus (words.read (name_view a)) (words.read (name_view b)) }
    {
        Term::SumRead(a, false, b)
    }

    /// `a-b`, of two variables
    #[tactic(auto, using(crate::proofs::Views::terms))]
    pub fn minus_read(a: Name, b: Name) -> Term<'a>
        ensures { term_view result ≡ pairs.minus (words.read (name_view a)) (words.read (name_view b)) }
    {
        Term::SumRead(a, true, b)
    }

    /// `a+b+c`
    #[tactic(auto, using(crate::proofs::Views::terms))]
    pub fn sum_of_three(a: &'a Term<'a>, b: &'a Term<'a>, c: &'a Term<'a>) -> Term<'a>
        ensures { term_view result ≡ words.sum (term_view a.now) (further false (term_view b.now) (further false (term_view c.now) no_more)) }
    {
        Term::SumOfThree(a, false, b, false, c)
    }

    /// `a-b-c`
    #[tactic(auto, using(crate::proofs::Views::terms))]
    pub fn less_two(a: &'a Term<'a>, b: &'a Term<'a>, c: &'a Term<'a>) -> Term<'a>
        ensures { term_view result ≡ words.sum (term_view a.now) (further true (term_view b.now) (further true (term_view c.now) no_more)) }
    {
        Term::SumOfThree(a, true, b, true, c)
    }

    /// `a+b+c+d`
    #[tactic(auto, using(crate::proofs::Views::terms))]
    pub fn sum_of_four(
        a: &'a Term<'a>,
        b: &'a Term<'a>,
        c: &'a Term<'a>,
        d: &'a Term<'a>,
    ) -> Term<'a>
        ensures { term_view result ≡ words.sum (term_view a.now) (further false (term_view b.now) (further false (term_view c.now) (further false (term_view d.now) no_more))) }
    {
        Term::SumOfFour(a, b, c, d)
    }

    #[tactic(auto, using(crate::proofs::Views::terms))]
    pub fn product(a: &'a Term<'a>, b: &'a Term<'a>) -> Term<'a>
        ensures { term_view result ≡ words.product (term_view a.now) (term_view b.now) }
    {
        Term::Product(a, b)
    }

    #[tactic(auto, using(crate::proofs::Views::terms))]
    pub fn zeros(a: &'a Term<'a>) -> Term<'a>
        ensures { term_view result ≡ words.zeros (term_view a.now) }
    {
        Term::Zeros(a)
    }

    #[tactic(auto, using(crate::proofs::Views::terms))]
    pub fn compare(signed: bool, relation: Relation, a: &'a Term<'a>, b: &'a Term<'a>) -> Term<'a>
        ensures { term_view result ≡ words.compare signed (relation_view relation) (term_view a.now) (term_view b.now) }
    {
        Term::Compare(signed, relation, a, b)
    }

    /// Of a word with a literal.
    #[tactic(auto, using(crate::proofs::Views::terms))]
    pub fn compare_number(signed: bool, relation: Relation, a: &'a Term<'a>, value: i64) -> Term<'a>
        ensures { term_view result ≡ words.compare signed (relation_view relation) (term_view a.now) (words.number value) }
    {
        Term::CompareNumber(signed, relation, a, value)
    }

    /// Of two variables.
    #[tactic(auto, using(crate::proofs::Views::terms))]
    pub fn compare_read(signed: bool, relation: Relation, a: Name, b: Name) -> Term<'a>
        ensures { term_view result ≡ words.compare signed (relation_view relation) (words.read (name_view a)) (words.read (name_view b)) }
    {
        Term::CompareRead(signed, relation, a, b)
    }

    #[tactic(auto, using(crate::proofs::Views::terms))]
    pub fn choose(test: &'a Term<'a>, a: &'a Term<'a>, b: &'a Term<'a>) -> Term<'a>
        ensures { term_view result ≡ words.choose (term_view test.now) (term_view a.now) (term_view b.now) }
    {
        Term::Choose(test, a, b)
    }

    #[tactic(auto, using(crate::proofs::Views::terms))]
    pub fn byte(signed: bool, at: &'a Term<'a>) -> Term<'a>
        ensures { term_view result ≡ words.byte signed (term_view at.now) }
    {
        Term::Byte(signed, at)
    }

    #[tactic(auto, using(crate::proofs::Views::terms))]
    pub fn whole(at: &'a Term<'a>) -> Term<'a>
        ensures { term_view result ≡ words.whole (term_view at.now) }
    {
        Term::Whole(at)
    }
}
