// The source over the bytes of a T section's content: own parameters, then row 0, then nothing.
ghost use Rattle.std.specs.Prelude.{◌≡◌, [], length, Ok};
ghost use Rattle.reactive.specs.Rows.{at_place};
ghost use Rattle.image.specs.Bytes.{see};
ghost use Rattle.image.specs.Steps.{see_numbers, passed, many_at, row_at};
ghost use Rattle.image_source.specs.Sections.{held_rows, section_rows, section_parameters};
ghost use Rattle.image_source.specs.Standings.{see_standing};
ghost use Rattle.image_source.specs.Sources.{image_reading};

use crate::row::row_head;
use crate::standing::Standing;
pub use crate::state::ImageSource;
use arrayvec::ArrayVec;
use hir::ids::IdentifierId;
use hir::span::MOST_OPEN;
use image::cursor::Cursor;
use image::fields::Numbers;
use image::row::check_row;
use reactive::row::RowHead;
use reactive::source::TreeSource;

// The own parameters: none, where their list does not fit.
pub fn parameters<'a>(content: &'a [u8]) -> Numbers<'a>
    ensures { see_numbers result ≡ section_parameters content.now }
{
    match Cursor::new(content).read_numbers() {
        Ok((numbers, _)) => numbers,
        Err(_) => Numbers::default(),
    }
}

// Where row 0 stands: at no bytes, where the check refuses the content.
// No Option: no bytes hold no rows, so that nothing ever asks which of the two it is.
fn checked_rows<'a>(content: &'a [u8]) -> Cursor<'a>
    ensures rows { held_rows (see result) ≡ section_rows content.now }
    ensures fills { passed (many_at (row_at 128) (see result)) ≡ Ok tt }
{
    let none = Cursor::new(&[]);
    let Ok((_, rows)) = Cursor::new(content).read_numbers() else {
        return none;
    };
    match check_row(rows, MOST_OPEN as u8) {
        Ok(behind) if behind.is_empty() => rows,
        _ => none,
    }
}

impl<'a> ImageSource<'a> {
    // The rows of a T section's content: none, where the check refuses it.
    pub fn new(content: &'a [u8]) -> ImageSource<'a>
        ensures { image_reading result ≡ at_place (section_rows content.now) 0 }
    {
        let rows = checked_rows(content);
        ImageSource {
            rows,
            at: Standing::new(rows),
            behind: ArrayVec::new(),
        }
    }

    // Closes the rows that are read to their end, each of them once: how many these are is known only on the way.
    fn close_ended(&mut self)
        ensures same { image_reading self.new ≡ image_reading self.old }
        ensures closed { length self.new.at.left.rest.now ≡ 0 → self.new.behind.items ≡ [] }
    {
        while self.at.left.is_empty() {
            let Some(rest) = self.behind.pop() else {
                break;
            };
            // What follows a row begins at the byte where the row ends.
            self.at.left = Cursor {
                rest,
                at: self.at.left.at,
            };
        }
    }
}

impl<'a> TreeSource for ImageSource<'a> {
    ghost reading = { image_reading };

    #[tactic(auto, using(crate::proofs::Keeps::restarts))]
    fn rewind(&mut self) {
        self.at = Standing::new(self.rows);
        self.behind.clear();
    }

    fn next(&mut self) -> Option<RowHead> {
        self.close_ended();
        // The check has read every row, so that only an empty holder fails here.
        let Ok((fields, children, after)) = self.at.left.read_head() else {
            return None;
        };
        let depth = self.behind.len() as u32;
        self.behind.push(after.rest);
        self.at = Standing {
            left: children,
            given: self.at.given + 1,
            operands: fields.operands,
            marks: fields.marks,
        };
        Some(row_head(depth, fields))
    }

    fn operand(&self, i: usize) -> Option<IdentifierId> {
        self.at.operands.get(i).map(IdentifierId)
    }

    fn mark(&self, i: usize) -> Option<IdentifierId> {
        self.at.marks.get(i).map(IdentifierId)
    }
}
