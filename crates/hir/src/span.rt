ghost use Rattle.std.specs.Prelude.{◌≡◌};
ghost use Rattle.hir.specs.Spans.{part};

// The longest list that a run takes.
pub const LONGEST_LIST: u32 = 4096;

// How many rows of a tree may be open at once: each lies in the one before.
pub const MOST_OPEN: usize = 128;

// A list: a part of a pool of numbers. All lists lie in one lent pool: a rule of this project.
#[derive(Clone, Copy, Default, PartialEq)]
pub struct Span {
    pub start: u32,
    pub count: u32,
}

impl Span {
    // The numbers of the list, cut at the pool's end.
    pub fn of<'a>(self, pool: &'a [u32]) -> &'a [u32]
        ensures { result.now ≡ part pool.now self }
    {
        let start = (self.start as usize).min(pool.len());
        let end = start + (self.count as usize).min(pool.len() - start);
        &pool[start..end]
    }
}
