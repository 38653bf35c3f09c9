// The rows of a source as one row within which the others lie.
ghost use Rattle.std.specs.Prelude.{◌≡◌, ℕ, ◌^◌, ◌<◌, ◌≤◌, ◌⊎◌, min, [], map, length, IfErr, IfOk, vec_items, vec_len, OnOk};
ghost use Rattle.reactive.specs.Rows.{rewound};
ghost use Rattle.image_encode.specs.declared.fault.EncodeFault.TheVariants.{Unfit};
ghost use Rattle.image_encode.specs.Fields.{LongList};
ghost use Rattle.image_encode.specs.Opens.{Closed, ClosedTo, TooLong, Entered, fits_at};
ghost use Rattle.image_encode.specs.Trees.{TreeOf, NoTree};

use crate::bytes::write_part;
use crate::fault::EncodeFault;
use crate::row::{fits, write_fields};
use hir::span::MOST_OPEN;
use reactive::given::GivenRow;
use reactive::row::RowHead;
use reactive::source::TreeSource;
use std::alloc::Global;
use std::mem;

// What is written so far of the open rows: of the innermost, and of those around it.
#[derive(Drop)]
struct OpenRows {
    top: Vec<u8>,
    around: Vec<Vec<u8>>,
}

impl OpenRows {
    // Before the first row.
    fn new(heap: Global) -> OpenRows
        ensures top { result.top.items ≡ [] }
        ensures around { map vec_items result.around.items ≡ [] }
    {
        OpenRows {
            top: Vec::new(heap),
            around: Vec::new(heap),
        }
    }

    // Closes the innermost: behind its length its bytes go behind what the row around it has.
    fn close(&mut self) -> Result<(), EncodeFault>
        requires { 0 < vec_len self.old.around }
        ensures closed { OnOk result (Closed self.old.top.items (map vec_items self.old.around.items) self.new.top.items (map vec_items self.new.around.items)) }
        ensures fault { IfErr result (λ e. (e ≡ Unfit → 2 ^ 32 ≤ length self.old.top.items)) }
    {
        let Some(mut parent) = self.around.pop() else {
            unreachable!()
        };
        write_part(&mut parent, &self.top)?;
        self.top = parent;
        Ok(())
    }

    // Closes rows until at most `depth` are around the innermost.
    fn close_to(&mut self, depth: usize) -> Result<(), EncodeFault>
        ensures closed { OnOk result (ClosedTo self.old.top.items (map vec_items self.old.around.items) self.new.top.items (map vec_items self.new.around.items)) }
        ensures left { OnOk result (vec_len self.new.around ≡ min (vec_len self.old.around) depth) }
        ensures fault { IfErr result (λ e. (e ≡ Unfit → TooLong depth self.old.top.items (map vec_items self.old.around.items))) }
    {
        while self.around.len() > depth {
            self.close()?;
        }
        Ok(())
    }

    // Opens a row within the innermost.
    fn enter<S: TreeSource>(&mut self, heap: Global, row: &GivenRow<S>) -> Result<(), EncodeFault>
        ensures entered { OnOk result (Entered row.now self.old.top.items (map vec_items self.old.around.items) self.new.top.items (map vec_items self.new.around.items)) }
        ensures fault { IfErr result (λ e. (e ≡ Unfit → LongList row.now)) }
    {
        let mut top = Vec::new(heap);
        write_fields(&mut top, row)?;
        self.around.push(mem::replace(&mut self.top, top))?;
        Ok(())
    }

    // Closes all rows: the bytes of the first, with all others within it.
    fn finish(mut self) -> Result<Vec<u8>, EncodeFault>
        ensures some { IfOk result (λ v. 0 < vec_len self.around) }
        ensures closed { IfOk result (λ v. ClosedTo self.top.items (map vec_items self.around.items) v.items []) }
        ensures fault { IfErr result (λ e. (e ≡ Unfit → (vec_len self.around ≡ 0) ⊎ TooLong 0 self.top.items (map vec_items self.around.items))) }
    {
        if self.around.is_empty() {
            return Err(EncodeFault::Unfit);
        }
        self.close_to(0)?;
        let OpenRows { top, around: _ } = self;
        Ok(top)
    }

    // Whether a row can stand within them.
    fn takes(&self, row: &RowHead) -> bool
        ensures { result ≡ fits_at (vec_len self.now.around) row.now }
    {
        let height = self.around.len();
        row.depth as usize <= height
            && (row.depth as usize) < MOST_OPEN
            && (height == 0 || row.depth > 0)
            && fits(row)
    }
}

// The rows of a source at its start.
fn write_rows<S: TreeSource>(heap: Global, source: &mut S) -> Result<Vec<u8>, EncodeFault>
    requires { (S.TreeSource.reading source.old).place ≡ 0 }
    ensures tree { IfOk result (λ v. TreeOf (S.TreeSource.reading source.old).rows v.items) }
    ensures none { IfErr result (λ e. (e ≡ Unfit → NoTree (S.TreeSource.reading source.old).rows)) }
    ensures rows { (S.TreeSource.reading source.new).rows ≡ (S.TreeSource.reading source.old).rows }
{
    let mut open = OpenRows::new(heap);
    while let Some(row) = source.next() {
        if !open.takes(&row) {
            return Err(EncodeFault::Unfit);
        }
        open.close_to(row.depth as usize)?;
        open.enter(heap, &GivenRow::new(row, source))?;
    }
    open.finish()
}

// The rows of a source, as one row within which the others lie.
pub fn write_tree<S: TreeSource>(heap: Global, source: &mut S) -> Result<Vec<u8>, EncodeFault>
    ensures tree { IfOk result (λ v. TreeOf (S.TreeSource.reading source.old).rows v.items) }
    ensures none { IfErr result (λ e. (e ≡ Unfit → NoTree (S.TreeSource.reading source.old).rows)) }
    ensures source { S.TreeSource.reading source.new ≡ rewound (S.TreeSource.reading source.old) }
{
    source.rewind();
    let written = write_rows(heap, source);
    source.rewind();
    written
}
