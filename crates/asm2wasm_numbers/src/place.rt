//! Places of variables.

/// Where a variable stands: a local, a global counted after the imported ones, or nowhere.
#[derive(Clone, Copy, PartialEq, Eq, Debug)]
pub enum Place {
    Local(usize),
    Global(usize),
    Nowhere,
}
