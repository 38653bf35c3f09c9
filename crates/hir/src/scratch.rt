ghost use Rattle.std.specs.Prelude.{◌≡◌};
ghost use Rattle.hir.specs.Scratches.{noted, blank};

use crate::ids::ScopeId;
pub use crate::packed::Link;
use crate::packed::{PackedEpoch, PackedLink, PackedRecording};

// What a run notes of an identifier (constant, global, tracked) and of a declaration (the rest).
#[derive(Clone, Copy, Default, PartialEq)]
pub struct Work {
    // the declaration is that of a JSX tag
    pub tag: bool,
    // this run named an identifier of the declaration
    pub promoted: bool,
    // the link of the innermost active scope when a Pruned row last recorded the declaration
    pub recorded: PackedRecording,
    // it was used in another scope since
    pub escaped: bool,
    pub constant: bool,
    pub global: bool,
    // the epoch in which the identifier was last tracked
    pub tracked: PackedEpoch,
}

// An active scope, and the link of the one around it.
#[derive(Clone, Copy, Default, PartialEq)]
pub struct Trail {
    pub scope: ScopeId,
    pub link: PackedLink,
}

// Handed on beside the environment and not in one struct with it, whose methods would each have to ensure that both references stay the same.
// Memory that a run may write over: a work row for each identifier, a mark for each function, a trail row for each Scope row.
// Rows of their own beside the tables, which are lent apart and have no room for notes.
#[derive(Drop)]
pub struct Scratch<'a> {
    pub work: &'a mut [Work],
    pub marks: &'a mut [bool],
    pub trail: &'a mut [Trail],
}

impl<'a> Scratch<'a> {
    // Takes away what an earlier run noted, so that no answer depends on it.
    pub fn reset(&mut self)
        ensures { noted self.new ≡ blank (noted self.old) }
    {
        self.work.fill(Work::default());
        self.marks.fill(false);
    }
}
