// Layer 1: numbers, lists and lengths.
ghost use Rattle.std.specs.Prelude.{◌≡◌, ℕ, ◌+◌, ◌*◌, ◌^◌, ◌≤◌, length, IfOk};
ghost use Rattle.image.specs.Bytes.{see};
ghost use Rattle.image.specs.Steps.{Is, u8_at, u32_at, numbers_at, part_at, see_numbers};

use crate::cursor::Cursor;
use crate::fault::ByteFault;
use crate::fields::Numbers;

impl<'a> Cursor<'a> {
    // A byte, and what follows it.
    pub fn read_u8(self) -> Result<(u8, Cursor<'a>), ByteFault>
        ensures { Is (λ v. (v.0, see v.1)) result (u8_at (see self.entry)) }
    {
        match self.rest {
            [a, ..] => Ok((*a, self.past(1))),
            [] => Err(ByteFault { at: self.at }),
        }
    }

    // A number of four bytes, and what follows it.
    pub fn read_u32(self) -> Result<(u32, Cursor<'a>), ByteFault>
        ensures { Is (λ v. (v.0, see v.1)) result (u32_at (see self.entry)) }
    {
        match self.rest {
            [a, b, c, d, ..] => Ok((u32::from_be_bytes([*a, *b, *c, *d]), self.past(4))),
            _ => Err(ByteFault { at: self.at }),
        }
    }

    // A list's count and numbers, and what follows them.
    #[tactic(auto, using(crate::proofs::Words::chunks_are))]
    pub fn read_numbers(self) -> Result<(Numbers<'a>, Cursor<'a>), ByteFault>
        ensures { Is (λ v. (see_numbers v.0, see v.1)) result (numbers_at (see self.entry)) }
    {
        let (count, body) = self.read_u32()?;
        let fault = ByteFault { at: self.at };
        let (list, rest) = body.split(count as usize * 4).ok_or(fault)?;
        let (words, _) = list.rest.as_chunks::<4>();
        Ok((Numbers { words }, rest))
    }

    // What a length counts, and what follows it.
    pub fn read_part(self) -> Result<(Cursor<'a>, Cursor<'a>), ByteFault>
        ensures is { Is (λ v. (see v.0, see v.1)) result (part_at (see self.entry)) }
        ensures shorter { IfOk result (λ v. length v.1.rest.now + 4 ≤ length self.entry.rest.now) }
    {
        let (length, body) = self.read_u32()?;
        let fault = ByteFault { at: self.at };
        body.split(length as usize).ok_or(fault)
    }
}
