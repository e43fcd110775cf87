//! What a sink over a writer asks of it, apart from writing.
ghost use Rattle.std.specs.Prelude.{◌≡◌, Bool, true, false, is_some, refl};

use std::io::{Print, Printer, Write};

/// A writer whose type says whether the bytes that it holds are known: those of a vector are,
/// and those of standard output are not.
pub trait Output: Write {
    // Whether the bytes that a writer of this type holds are known.
    ghost tells: { Bool };

    // It is so at each of its states, so that no write changes it.
    ghost told: { (writer : Self) → is_some (Self.Write.contents writer) ≡ tells };
}

impl<P: Print> Output for Printer<'_, P> {
    ghost tells = { false };

    ghost told = { λ _. refl };
}

impl Output for Vec<u8> {
    ghost tells = { true };

    ghost told = { λ _. refl };
}

impl Output for &mut [u8] {
    ghost tells = { false };

    ghost told = { λ _. refl };
}

impl<W: Output> Output for &mut W {
    ghost tells = { W.tells };

    ghost told = { λ writer. W.told writer.now };
}
