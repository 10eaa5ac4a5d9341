//! What becomes of a function at an operation.

/// Why the operations of a function leave off.
#[derive(Clone, Copy)]
pub enum Leaving {
    /// A call of a function, with its arguments from a slot on, for which the unit is taken.
    Call(u32, u32),
    /// The end of the function, with its value.
    Give(u32),
    /// A unit is due, and none is left.
    Unpaid,
    /// The session is over, with the world's ending.
    Halted,
    Lost,
}

/// It goes on at an address, or leaves off.
#[derive(Clone, Copy)]
pub enum Flow {
    On(u32),
    Off(Leaving),
}
