//! How calls of the host end.

/// How a call of the host ended: it is back with a word; the session is over, with the world's ending; a unit is due, and none is left;
/// or there is no operation, or a jump doesn't go forward.
#[derive(Clone, Copy)]
pub enum Ended {
    Back(u32),
    Halted,
    Unpaid,
    Lost,
}
