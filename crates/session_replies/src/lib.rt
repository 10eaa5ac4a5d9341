//! How the host answers a call of an import: by the replies of a script, in order, each with its
//! byte writes; and what is seen of a session, with its heap as it stands.
#![tactic(auto)]

mod answering;
mod puts;
mod seen;

pub use answering::{Answer, Given, Replies};
pub use puts::put_writes;
pub use seen::Seen;
