// How far a source has given its rows.
ghost use Rattle.std.specs.Prelude.{◌≡◌};
ghost use Rattle.image.specs.Bytes.{see};
ghost use Rattle.image_source.specs.Standings.{see_standing, starting};

use image::cursor::Cursor;
use image::fields::Numbers;

// What is left of the innermost open row, how many rows were given, and the lists of the last.
// `given` is there for what the source stands for: a ghost field holds facts and no number.
#[derive(Clone, Copy)]
pub struct Standing<'a> {
    pub left: Cursor<'a>,
    pub given: usize,
    pub operands: Numbers<'a>,
    pub marks: Numbers<'a>,
}

impl<'a> Standing<'a> {
    // Before the first row.
    pub fn new(rows: Cursor<'a>) -> Standing<'a>
        ensures { see_standing result ≡ starting (see rows.entry) }
    {
        Standing {
            left: rows,
            given: 0,
            operands: Numbers::default(),
            marks: Numbers::default(),
        }
    }
}
