//! A name in a statement.

use sem_words::Text;

/// A name, and what it is used for.
#[derive(Clone, Copy)]
pub enum Use<'a> {
    /// A variable is read or assigned.
    Variable(&'a Text),
    /// An element of a view is read or written.
    View(&'a Text),
    /// A function is called.
    Callee(&'a Text),
    /// A member of a table is called.
    Table(&'a Text),
}
