// What is written are bytes.

ghost use Rattle.std.specs.Prelude.{◌≡◌, ◌<◌, All, true};
ghost use Rattle.session_lang.specs.Fits;

/// Each number of a slice of bytes is one.
#[tactic(auto, using(crate::proofs::Written::test_of_bytes))]
pub fn bytes_are(bytes: &[u8])
    ensures { Fits.are_bytes bytes.now ≡ true }
{
    all_below(bytes);
}

fn all_below(bytes: &[u8])
    ensures { All (λ b. b < 256) bytes.now }
{}
