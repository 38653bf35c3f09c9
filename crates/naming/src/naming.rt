// What every naming promises.
ghost use Rattle.std.specs.Prelude.{◌≡◌, ℕ, List};
ghost use Rattle.naming.specs.declared.letter.Letter.{Letter};
ghost use Rattle.naming.specs.Texts.{Lawful, write_answer, write_bytes};

use crate::letter::Letter;
use hir::refusal::Refusal;

// A text for each letter and each number below 65,536, no two alike. Two parameters: no name is ever kept as a value.
pub trait Naming {
    ghost text: { Self → Letter → ℕ → List ℕ };

    // Writes the text over the front of the buffer and answers its length, or refuses a shorter buffer and leaves it.
    fn write(&self, letter: Letter, number: u16, buffer: &mut [u8]) -> Result<usize, Refusal>
        ensures value { result ≡ write_answer (text self.now letter number) buffer.old }
        ensures bytes { buffer.new ≡ write_bytes (text self.now letter number) buffer.old };

    ghost keeps: { (s : Self) → Lawful (text s) };
}
