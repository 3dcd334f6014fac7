//! The table of signs.
ghost use Rattle.std.specs.Prelude.{◌≡◌, true};
ghost use Rattle.text_tokens.specs.Signs as signs;

/// Which byte lengthens a punctuator is told as the punctuators of the language say: each that begins a longer one does, or a comment; and
/// no other, but the second of three dots.
pub fn punctuators_are_told()
    ensures complete { signs.all_are_told signs.punctuators signs.beginnings ≡ true }
    ensures sound { signs.all_told_rightly signs.punctuators signs.sign_bytes ≡ true }
{}
