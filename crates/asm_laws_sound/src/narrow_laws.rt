//! asm.js: sessions show words of 32 bits alone.

ghost use Rattle.asm_laws_sound.specs.NarrowLaws.{SightsAreNarrow, SessionsAreNarrow};

/// The words in the events and in the end of a session of asm.js have 32 bits each.
pub fn narrow_sessions()
    ensures sights { SightsAreNarrow }
    ensures sessions { SessionsAreNarrow }
{}
