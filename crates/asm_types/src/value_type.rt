//! The types and their order.
ghost use Rattle.std.specs.Prelude.{◌≡◌, ◌↔◌, IsTrue};
ghost use Rattle.asm_types.specs.Types.{IsBelow, is_below};

/// The type of an expression (asm.js draft, section 2.1, without those of doubles and floats).
#[derive(Clone, Copy, PartialEq, Eq, Debug)]
pub enum ValueType {
    Fixnum,
    Signed,
    Unsigned,
    Int,
    Intish,
    Extern,
    Void,
}

/// Whether each value of type `a` may stand where one of type `b` is asked for.
#[tactic(auto, using(crate::proofs::Order::is_below_iff))]
pub fn below(a: ValueType, b: ValueType) -> bool
    ensures value { result ≡ is_below a b }
    ensures rules { IsTrue result ↔ IsBelow a b }
{
    is_below(a, b)
}

fn is_below(a: ValueType, b: ValueType) -> bool
    ensures { result ≡ is_below a b }
{
    match a {
        ValueType::Fixnum => b != ValueType::Void,
        ValueType::Signed => matches!(
            b,
            ValueType::Signed | ValueType::Int | ValueType::Intish | ValueType::Extern
        ),
        ValueType::Unsigned => matches!(
            b,
            ValueType::Unsigned | ValueType::Int | ValueType::Intish
        ),
        ValueType::Int => matches!(b, ValueType::Int | ValueType::Intish),
        ValueType::Intish => b == ValueType::Intish,
        ValueType::Extern => b == ValueType::Extern,
        ValueType::Void => b == ValueType::Void,
    }
}
