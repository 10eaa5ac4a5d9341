// The first of some lines.

ghost use Rattle.std.specs.Prelude.{◌≡◌};
ghost use Rattle.session_lang.specs.Fits;
ghost use Rattle.session_lang.specs.Earlier;

/// The lesser of a line and another, where there is another.
pub fn lesser(line: u64, other: Option<u64>) -> Option<u64>
    ensures { result ≡ Fits.lesser line other }
{
    match other {
        None => Some(line),
        Some(other) => {
            if other < line {
                Some(other)
            } else {
                Some(line)
            }
        }
    }
}

/// The lesser of two lines, where there are two.
pub fn earlier(line: Option<u64>, other: Option<u64>) -> Option<u64>
    ensures { result ≡ Earlier.earlier line other }
{
    match line {
        None => other,
        Some(line) => lesser(line, other),
    }
}
