// The state of a source over bytes.
ghost use Rattle.image.specs.Bytes.{see};
ghost use Rattle.image_source.specs.Standings.{innermost_first, Stands, see_standing};

use crate::standing::Standing;
use arrayvec::ArrayVec;
use hir::span::MOST_OPEN;
use image::cursor::Cursor;

// Rows that fill `rows`, how far they have been given, and what follows each open row where it ends, innermost last.
#[derive(Drop)]
pub struct ImageSource<'a> {
    pub(crate) rows: Cursor<'a>,
    pub(crate) at: Standing<'a>,
    pub(crate) behind: ArrayVec<&'a [u8], MOST_OPEN>,
    ghost ok: { ∥ Stands (see rows) (see_standing at) (innermost_first behind.items) ∥₁ },
}
