//! Scratch locals.
ghost use Rattle.std.specs.Prelude.{◌≡◌, ◌+◌, ◌<◌, ◌^◌, suc};

/// The scratch locals from the number `depth` on, of which the one of number 0 is the local `first`.
#[derive(Clone, Copy)]
pub struct Scratch {
    pub first: usize,
    pub depth: usize,
}

impl Scratch {
    /// The first of them.
    pub fn current(self) -> usize
        requires { self.first + self.depth < 2 ^ 32 }
        ensures { result ≡ self.first + self.depth }
    {
        self.first + self.depth
    }

    /// The one after it.
    pub fn following(self) -> usize
        requires { self.first + suc self.depth < 2 ^ 32 }
        ensures { result ≡ self.first + suc self.depth }
    {
        self.first + self.depth + 1
    }
}
