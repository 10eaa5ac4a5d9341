//! What the marks of a text name: the ids of its spaces with their numbers, and the types of functions, field by field.
#![tactic(auto)]

mod field;
mod heads;
mod ids;
mod lists;
mod naming;
mod signatures;
mod spaces;

pub use field::{Entry, Field, described};
pub use heads::{capped_use, known_use, local_names};
pub use ids::Ids;
pub use naming::{ModuleNames, Naming};
pub use signatures::{params_of, signature, types_in};
pub use spaces::{Spaces, add_id};
