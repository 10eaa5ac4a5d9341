//! Of the module of asm.js that a module of WebAssembly is translated to: the variables, the exports, `$init` and `$hi`.
#![tactic(auto)]

mod declarations;
mod declaring;
mod exporting;
mod globals;
mod importing;
mod leaving;
mod segments;
mod starting;

pub use declarations::variables;
pub use exporting::exports;
pub use leaving::high_function;
pub use starting::init_function;
