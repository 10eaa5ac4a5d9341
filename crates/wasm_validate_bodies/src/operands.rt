// Operands of known and unknown types, on one stack for all open blocks.

ghost use Rattle.std.specs.Prelude.{◌≡◌, ◌≤◌, ◌∷◌, ◌++◌, [], true, reverse, vec_len, MatchResult};
ghost use Rattle.wasm_lang_valid.specs.State.{take_any, take_one, take_all, closes, joined, acted, known};
ghost use Rattle.wasm_lang_valid.specs.Typing.{listed, Fixed, Leaves, AnyOne, TwoAlike};
ghost use Rattle.wasm_lang.specs.declared.types.ValType.TheVariants.{I32};
ghost use Rattle.wasm_validate_bodies.specs.Blocks.{over, IsKept, FaultIs};

use crate::fault::Fault;
use wasm_lang::ValType;
use wasm_lang_valid::Rule;

// Takes an operand of any type, of those above the height.
pub fn pop(
    operands: &mut Vec<Option<ValType>>,
    height: usize,
    endless: bool,
) -> Result<Option<ValType>, Fault>
    requires { height ≤ vec_len operands.old }
    ensures kept { IsKept height operands.old.items operands.new.items }
    ensures value { MatchResult result (λ k. take_any endless (over height operands.old.items) ≡ Ok (k, over height operands.new.items)) (λ e. FaultIs e (take_any endless (over height operands.old.items))) }
{
    if operands.len() == height {
        return if endless {
            Ok(None)
        } else {
            Err(Fault::Broken(Rule::MissingOperand))
        };
    }
    match operands.pop() {
        Some(k) => Ok(k),
        None => unreachable!(),
    }
}

// Takes an operand that may have this type.
pub fn pop_one(
    operands: &mut Vec<Option<ValType>>,
    height: usize,
    endless: bool,
    t: ValType,
) -> Result<(), Fault>
    requires { height ≤ vec_len operands.old }
    ensures kept { IsKept height operands.old.items operands.new.items }
    ensures value { MatchResult result (λ _. take_one t endless (over height operands.old.items) ≡ Ok (over height operands.new.items)) (λ e. FaultIs e (take_one t endless (over height operands.old.items))) }
{
    match pop(operands, height, endless)? {
        None => Ok(()),
        Some(u) => {
            if t == u {
                Ok(())
            } else {
                Err(Fault::Broken(Rule::OtherType))
            }
        }
    }
}

// Takes operands that may have these types, the first from the top.
pub fn pop_all(
    operands: &mut Vec<Option<ValType>>,
    height: usize,
    endless: bool,
    takes: &[ValType],
) -> Result<(), Fault>
    requires { height ≤ vec_len operands.old }
    ensures kept { IsKept height operands.old.items operands.new.items }
    ensures value { MatchResult result (λ _. take_all takes.now endless (over height operands.old.items) ≡ Ok (over height operands.new.items)) (λ e. FaultIs e (take_all takes.now endless (over height operands.old.items))) }
{
    for t in takes {
        pop_one(operands, height, endless, *t)?;
    }
    Ok(())
}

// Takes operands that may have these types, the last from the top.
pub fn pop_params(
    operands: &mut Vec<Option<ValType>>,
    height: usize,
    endless: bool,
    params: &[ValType],
) -> Result<(), Fault>
    requires { height ≤ vec_len operands.old }
    ensures kept { IsKept height operands.old.items operands.new.items }
    ensures value { MatchResult result (λ _. take_all (reverse params.now) endless (over height operands.old.items) ≡ Ok (over height operands.new.items)) (λ e. FaultIs e (take_all (reverse params.now) endless (over height operands.old.items))) }
{
    let mut i = params.len();
    while i > 0 {
        i -= 1;
        pop_one(operands, height, endless, params[i])?;
    }
    Ok(())
}

// Takes a block's result.
pub fn pop_result(
    operands: &mut Vec<Option<ValType>>,
    height: usize,
    endless: bool,
    result_type: Option<ValType>,
) -> Result<(), Fault>
    requires { height ≤ vec_len operands.old }
    ensures kept { IsKept height operands.old.items operands.new.items }
    ensures value { MatchResult result (λ _. take_all (listed result_type) endless (over height operands.old.items) ≡ Ok (over height operands.new.items)) (λ e. FaultIs e (take_all (listed result_type) endless (over height operands.old.items))) }
{
    match result_type {
        None => Ok(()),
        Some(t) => pop_one(operands, height, endless, t),
    }
}

// Takes a block's result, which has to be all that is above the height.
pub fn close(
    operands: &mut Vec<Option<ValType>>,
    height: usize,
    endless: bool,
    result_type: Option<ValType>,
) -> Result<(), Fault>
    requires { height ≤ vec_len operands.old }
    ensures kept { IsKept height operands.old.items operands.new.items }
    ensures value { MatchResult result (λ _. (closes result_type endless (over height operands.old.items) ≡ Ok tt) × (vec_len operands.new ≡ height)) (λ e. FaultIs e (closes result_type endless (over height operands.old.items))) }
{
    pop_result(operands, height, endless, result_type)?;
    if operands.len() == height {
        Ok(())
    } else {
        Err(Fault::Broken(Rule::OperandsLeft))
    }
}

// Puts an operand on the stack.
pub fn push(operands: &mut Vec<Option<ValType>>, operand: Option<ValType>) -> Result<(), Fault>
    ensures { MatchResult result (λ _. operands.new.items ≡ operands.old.items ++ operand ∷ []) (λ e. (operands.new.items ≡ operands.old.items) × (e ≡ Fault.Memory)) }
{
    match operands.push(operand) {
        Ok(()) => Ok(()),
        Err(_) => Err(Fault::Memory),
    }
}

// Puts a block's result on the stack.
pub fn push_result(
    operands: &mut Vec<Option<ValType>>,
    result_type: Option<ValType>,
) -> Result<(), Fault>
    ensures longer { vec_len operands.old ≤ vec_len operands.new }
    ensures value { MatchResult result (λ _. operands.new.items ≡ operands.old.items ++ known (listed result_type)) (λ e. (operands.new.items ≡ operands.old.items) × (e ≡ Fault.Memory)) }
{
    match result_type {
        None => Ok(()),
        Some(t) => push(operands, Some(t)),
    }
}

// Takes operands of these types and gives one, or none.
pub fn act_fixed(
    operands: &mut Vec<Option<ValType>>,
    height: usize,
    endless: bool,
    takes: &[ValType],
    gives: Option<ValType>,
) -> Result<(), Fault>
    requires { height ≤ vec_len operands.old }
    ensures kept { IsKept height operands.old.items operands.new.items }
    ensures value { MatchResult result (λ _. acted (Fixed takes.now (listed gives)) endless (over height operands.old.items) ≡ Ok (endless, over height operands.new.items)) (λ e. FaultIs e (acted (Fixed takes.now (listed gives)) endless (over height operands.old.items))) }
{
    pop_all(operands, height, endless, takes)?;
    push_result(operands, gives)
}

// Takes a function's arguments, and gives its result.
pub fn act_call(
    operands: &mut Vec<Option<ValType>>,
    height: usize,
    endless: bool,
    params: &[ValType],
    gives: Option<ValType>,
) -> Result<(), Fault>
    requires { height ≤ vec_len operands.old }
    ensures kept { IsKept height operands.old.items operands.new.items }
    ensures value { MatchResult result (λ _. acted (Fixed (reverse params.now) (listed gives)) endless (over height operands.old.items) ≡ Ok (endless, over height operands.new.items)) (λ e. FaultIs e (acted (Fixed (reverse params.now) (listed gives)) endless (over height operands.old.items))) }
{
    pop_params(operands, height, endless, params)?;
    push_result(operands, gives)
}

// Takes the number of a table's entry and a function's arguments, and gives its result.
pub fn act_indirect(
    operands: &mut Vec<Option<ValType>>,
    height: usize,
    endless: bool,
    params: &[ValType],
    gives: Option<ValType>,
) -> Result<(), Fault>
    requires { height ≤ vec_len operands.old }
    ensures kept { IsKept height operands.old.items operands.new.items }
    ensures value { MatchResult result (λ _. acted (Fixed (I32 ∷ reverse params.now) (listed gives)) endless (over height operands.old.items) ≡ Ok (endless, over height operands.new.items)) (λ e. FaultIs e (acted (Fixed (I32 ∷ reverse params.now) (listed gives)) endless (over height operands.old.items))) }
{
    pop_one(operands, height, endless, ValType::I32)?;
    act_call(operands, height, endless, params, gives)
}

// Takes operands of these types, and leaves none.
pub fn act_leaves(
    operands: &mut Vec<Option<ValType>>,
    height: usize,
    endless: bool,
    takes: &[ValType],
) -> Result<(), Fault>
    requires { height ≤ vec_len operands.old }
    ensures kept { IsKept height operands.old.items operands.new.items }
    ensures value { MatchResult result (λ _. acted (Leaves takes.now) endless (over height operands.old.items) ≡ Ok (true, over height operands.new.items)) (λ e. FaultIs e (acted (Leaves takes.now) endless (over height operands.old.items))) }
{
    pop_all(operands, height, endless, takes)?;
    operands.truncate(height);
    Ok(())
}

// Takes an operand.
pub fn act_any(
    operands: &mut Vec<Option<ValType>>,
    height: usize,
    endless: bool,
) -> Result<(), Fault>
    requires { height ≤ vec_len operands.old }
    ensures kept { IsKept height operands.old.items operands.new.items }
    ensures value { MatchResult result (λ _. acted AnyOne endless (over height operands.old.items) ≡ Ok (endless, over height operands.new.items)) (λ e. FaultIs e (acted AnyOne endless (over height operands.old.items))) }
{
    pop(operands, height, endless)?;
    Ok(())
}

// What two operands of one type are.
fn join(a: Option<ValType>, b: Option<ValType>) -> Result<Option<ValType>, Fault>
    ensures { MatchResult result (λ k. joined a b ≡ Ok k) (λ e. FaultIs e (joined a b)) }
{
    match (a, b) {
        (None, k) => Ok(k),
        (Some(t), None) => Ok(Some(t)),
        (Some(t), Some(u)) => {
            if t == u {
                Ok(Some(t))
            } else {
                Err(Fault::Broken(Rule::OtherType))
            }
        }
    }
}

// Takes a choice and two operands of one type, and gives one.
pub fn act_alike(
    operands: &mut Vec<Option<ValType>>,
    height: usize,
    endless: bool,
) -> Result<(), Fault>
    requires { height ≤ vec_len operands.old }
    ensures kept { IsKept height operands.old.items operands.new.items }
    ensures value { MatchResult result (λ _. acted TwoAlike endless (over height operands.old.items) ≡ Ok (endless, over height operands.new.items)) (λ e. FaultIs e (acted TwoAlike endless (over height operands.old.items))) }
{
    pop_one(operands, height, endless, ValType::I32)?;
    let second = pop(operands, height, endless)?;
    let first = pop(operands, height, endless)?;
    let k = join(second, first)?;
    push(operands, k)
}
