ghost use Rattle.std.specs.Prelude.{◌≡◌};
ghost use Rattle.hir.specs.Refusals.{refusal_number};

// Why a call is refused, under the number that it answers.
#[derive(Clone, Copy, PartialEq)]
pub enum Refusal {
    Limit = 1,
    Row = 2,
    List = 3,
    Journal = 4,
    Scratch = 5,
    Shape = 6,
    Depth = 7,
    Field = 8,
    Absent = 9,
    Named = 10,
    NotPromoted = 11,
    Buffer = 12,
}

impl Refusal {
    // A method and no From: the name says what the byte is.
    pub fn number(self) -> u8
        ensures { result ≡ refusal_number self }
    {
        self as u8
    }
}
