// The naming with eight hexadecimal digits, as `#t00000011`.
ghost use Rattle.naming.specs.Texts.{hexadecimal_text};
ghost use Rattle.naming.specs.Laws.{hexadecimal_lawful};

use crate::letter::Letter;
use crate::naming::Naming;
use crate::text::write_in_base;
use hir::refusal::Refusal;

// Eight lower-case hexadecimal digits.
#[derive(Clone, Copy)]
pub struct Hexadecimal;

impl Naming for Hexadecimal {
    ghost text = { λ _. hexadecimal_text };

    ghost keeps = { λ s. hexadecimal_lawful };

    fn write(&self, letter: Letter, number: u16, buffer: &mut [u8]) -> Result<usize, Refusal> {
        write_in_base(letter, number, 16, 8, buffer)
    }
}
