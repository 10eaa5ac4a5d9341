// Control frames, the innermost last.

ghost use Rattle.std.specs.Prelude.{◌≡◌, ◌<◌, ◌∷◌, [], reverse, vec_len, MatchResult};
ghost use Rattle.wasm_lang_valid.specs.Typing;
ghost use Rattle.wasm_validate_bodies.specs.Blocks.{outer, FaultIs};

use crate::fault::Fault;
use crate::frame::Frame;
use wasm_lang::ValType;
use wasm_lang_valid::{Opening, Rule};

/// The innermost frame.
pub fn innermost(frames: &Vec<Frame>) -> Result<Frame, Fault>
    ensures { MatchResult result (λ f. reverse frames.now.items ≡ f ∷ outer frames.now.items) (λ e. (frames.now.items ≡ []) × (e ≡ Fault.Broken Rule.Nesting)) }
{
    let n = frames.len();
    if n == 0 {
        Err(Fault::Broken(Rule::Nesting))
    } else {
        Ok(frames[n - 1])
    }
}

/// Puts a frame in the place of the innermost one.
pub fn replace(frames: &mut Vec<Frame>, frame: Frame)
    requires { 0 < vec_len frames.old }
    ensures { reverse frames.new.items ≡ frame ∷ outer frames.old.items }
{
    let last = frames.len() - 1;
    frames[last] = frame;
}

/// Takes the innermost frame away.
pub fn remove(frames: &mut Vec<Frame>)
    requires { 0 < vec_len frames.old }
    ensures { reverse frames.new.items ≡ outer frames.old.items }
{
    let last = frames.len() - 1;
    frames.truncate(last);
}

/// Puts a frame inside the others.
pub fn add(frames: &mut Vec<Frame>, frame: Frame) -> Result<(), Fault>
    ensures { MatchResult result (λ _. reverse frames.new.items ≡ frame ∷ reverse frames.old.items) (λ e. (frames.new.items ≡ frames.old.items) × (e ≡ Fault.Memory)) }
{
    match frames.push(frame) {
        Ok(()) => Ok(()),
        Err(_) => Err(Fault::Memory),
    }
}

/// An if with a result doesn't end with its first arm.
pub fn may_end(opening: Opening, result_type: Option<ValType>) -> Result<(), Fault>
    ensures { MatchResult result (λ _. Typing.may_end opening result_type ≡ Ok tt) (λ e. FaultIs e (Typing.may_end opening result_type)) }
{
    match (opening, result_type) {
        (Opening::FirstArm, Some(_)) => Err(Fault::Broken(Rule::IfWithoutElse)),
        _ => Ok(()),
    }
}

/// An else stands in the first arm of an if.
pub fn may_turn(opening: Opening) -> Result<(), Fault>
    ensures { MatchResult result (λ _. Typing.may_turn opening ≡ Ok tt) (λ e. FaultIs e (Typing.may_turn opening)) }
{
    match opening {
        Opening::FirstArm => Ok(()),
        Opening::Straight | Opening::Back => Err(Fault::Broken(Rule::Nesting)),
    }
}
