// A row's fields, with its lists as parts of the image.
ghost use Rattle.std.specs.Prelude.{◌≡◌, [], length};
ghost use Rattle.std.specs.List.{slice_get};
ghost use Rattle.image.specs.Bytes.{see};
ghost use Rattle.image.specs.Steps.{Is, fields_at, see_fields, see_numbers};

use crate::cursor::Cursor;
use crate::fault::ByteFault;

// The numbers of a list, four bytes each.
#[derive(Clone, Copy, Default)]
pub struct Numbers<'a> {
    pub words: &'a [[u8; 4]],
}

impl<'a> Numbers<'a> {
    // How many there are.
    pub fn len(self) -> usize
        ensures { result ≡ length (see_numbers self.entry) }
    {
        self.words.len()
    }

    // Number i.
    pub fn get(self, i: usize) -> Option<u32>
        ensures { result ≡ slice_get (see_numbers self.entry) i }
    {
        self.words.get(i).map(|word| u32::from_be_bytes(*word))
    }
}

// The fields of a row, unchecked; a number of all ones stands for an absent one.
// Words, as they lie in the image: what one stands for is said where rows are made of them.
#[derive(Clone, Copy)]
pub struct RowFields<'a> {
    pub code: u8,
    pub identifier: u32,
    pub number: u32,
    pub kind: u8,
    pub mode: u8,
    pub operands: Numbers<'a>,
    pub marks: Numbers<'a>,
}

impl<'a> Cursor<'a> {
    // A row's fields, and what follows them.
    pub fn read_fields(self) -> Result<(RowFields<'a>, Cursor<'a>), ByteFault>
        ensures { Is (λ v. (see_fields v.0, see v.1)) result (fields_at (see self.entry)) }
    {
        let (code, rest) = self.read_u8()?;
        let (identifier, rest) = rest.read_u32()?;
        let (number, rest) = rest.read_u32()?;
        let (kind, rest) = rest.read_u8()?;
        let (mode, rest) = rest.read_u8()?;
        let (operands, rest) = rest.read_numbers()?;
        let (marks, rest) = rest.read_numbers()?;
        let fields = RowFields {
            code,
            identifier,
            number,
            kind,
            mode,
            operands,
            marks,
        };
        Ok((fields, rest))
    }
}
