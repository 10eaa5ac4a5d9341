//! The bottom of Bridge: lists and texts that trees are built of, machine words of 32 and 64 bits,
//! JavaScript values, and the operators on both.
//!
//! Each operator equals its definition in `specs/`, which is written as sums, products, quotients and
//! powers of two on whole numbers.
#![tactic(auto)]

mod js_convert;
mod js_operator;
mod js_value;
mod js_whole;
mod list;
mod signed;
mod text;
mod word;
mod words32;
mod words64;

pub use js_convert::{to_int32, to_uint32, truthy};
pub use js_operator::{js_binary, js_clz32, js_imul, js_unary};
pub use js_value::{JsOp, JsUnary, JsValue};
pub use list::List;
pub use signed::{extend32, extend64, signed32, signed64, word32, word64};
pub use text::Text;
pub use word::{Bin, Rel, TrapKind, Un, Word};
pub use words32::{bin32, rel32, un32};
pub use words64::{bin64, rel64, un64};
