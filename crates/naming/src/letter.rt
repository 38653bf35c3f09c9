// The letter of a promoted name.
ghost use Rattle.std.specs.Prelude.{◌≡◌};
ghost use Rattle.naming.specs.Texts.{letter_byte};

// `t` or `T`.
#[derive(Clone, Copy, PartialEq)]
pub enum Letter {
    Lower,
    Upper,
}

impl Letter {
    // The byte that stands for the letter in a text. A method and no From: the name says what the byte is.
    pub fn byte(self) -> u8
        ensures { result ≡ letter_byte self }
    {
        match self {
            Letter::Lower => b't',
            Letter::Upper => b'T',
        }
    }
}
