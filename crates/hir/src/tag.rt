// Whether an identifier has a name, and which.
ghost use Rattle.hir.specs.Bytes.{Decodes};
ghost use Rattle.hir.specs.Tags.{tag_number};

use crate::unknown::Unknown;

// No name, an author's name, `#t` with the number of the declaration, or `#T` with it.
#[derive(Clone, Copy, Debug, PartialEq, Eq)]
pub enum Tag {
    Unnamed = 0,
    Author = 1,
    Lower = 2,
    Upper = 3,
}

// Written out: there is no derive for it.
impl TryFrom<u8> for Tag {
    type Error = Unknown;

    ghost try_from_gives = { Decodes tag_number 0 3 };

    fn try_from(byte: u8) -> Result<Tag, Unknown> {
        match byte {
            0 => Ok(Tag::Unnamed),
            1 => Ok(Tag::Author),
            2 => Ok(Tag::Lower),
            3 => Ok(Tag::Upper),
            _ => Err(Unknown(byte)),
        }
    }
}
