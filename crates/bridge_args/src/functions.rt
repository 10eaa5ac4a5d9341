//! How many functions a text is made of.

ghost use Rattle.std.specs.Prelude.{◌≡◌, ◌≤◌, true};
ghost use Rattle.bridge_lang.specs.Number.{is_gen_count};

/// How many functions a text is made of: 1 to 10,000.
#[derive(Clone, Copy, Debug)]
pub struct FunctionCount {
    pub functions: u32,
    ghost allowed: { is_gen_count functions ≡ true },
    ghost few: { (1 ≤ functions) × (functions ≤ 10000) },
}
