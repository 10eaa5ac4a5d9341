//! The tokens of asm.js: a text is cut into gaps and tokens, each token the longest that begins at its place.
#![tactic(auto)]

mod bytes;
mod comments;
mod fault;
mod front;
mod numbers;
mod punctuators;
mod quoted;
mod reading;
mod scanner;
mod token;

pub use bytes::is_name_byte;
pub use fault::TokenFault;
pub use front::token_len;
pub use reading::tokens;
pub use scanner::{Next, Scanner};
pub use token::{Token, TokenKind};
