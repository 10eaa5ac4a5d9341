//! Comments.

ghost use Rattle.std.specs.Prelude.{◌≡◌, ◌≤◌, None, Some, MatchOption, length, drop};
ghost use Rattle.std.specs.List.{prefix_len};
ghost use Rattle.wat_lang.specs.Tokens as spec;
ghost use Rattle.wat_tokens.specs.Fronts.{pair_view};

/// What two bytes in a block comment do.
#[derive(Clone, Copy)]
enum Pair {
    Opens,
    Closes,
    Neither,
}

fn pair_of(a: u8, b: u8) -> Pair
    ensures { pair_view result ≡ spec.pair_of a b }
{
    if a == b'(' && b == b';' {
        Pair::Opens
    } else if a == b';' && b == b')' {
        Pair::Closes
    } else {
        Pair::Neither
    }
}

/// How many bytes the rest of a block comment takes that is open, with its end.
#[tactic(auto, using(crate::proofs::Pairs::pairs))]
pub fn comment_len(s: &[u8]) -> Option<usize>
    ensures { MatchOption result (spec.comment_rest 0 s.now ≡ None) (λ n. (n ≤ length s.now) × (spec.comment_rest 0 s.now ≡ Some (drop n s.now))) }
{
    let mut n = 0;
    let mut inner = 0usize;
    while s.len() - n >= 2 {
        match pair_of(s[n], s[n + 1]) {
            Pair::Opens => {
                inner += 1;
                n += 2;
            }
            Pair::Closes => {
                n += 2;
                if inner == 0 {
                    return Some(n);
                }
                inner -= 1;
            }
            Pair::Neither => n += 1,
        }
    }
    None
}

/// How many bytes stand before a line feed or the end.
pub fn line_len(s: &[u8]) -> usize
    ensures value { result ≡ prefix_len spec.is_no_line_feed s.now }
    ensures within { result ≤ length s.now }
{
    let mut n = 0;
    while n < s.len() && s[n] != b'\n' {
        n += 1;
    }
    n
}
