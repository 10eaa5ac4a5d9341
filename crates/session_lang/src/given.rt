// Which names the lines of a script give values to.

ghost use Rattle.std.specs.Prelude.{◌≡◌, map};
ghost use Rattle.session_lang.specs.Views.{global_of};
ghost use Rattle.session_lang.specs.Fits;

use crate::script::GlobalLine;

/// Whether a line gives a value to this name.
pub fn is_given(globals: &[GlobalLine], name: &[u8]) -> bool
    ensures { result ≡ Fits.is_given (map global_of globals.now) name.now }
{
    for global in globals {
        if name == global.name.as_bytes() {
            return true;
        }
    }
    false
}
