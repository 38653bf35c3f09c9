// The naming with decimal digits, as `#t17`.
ghost use Rattle.std.specs.Prelude.{◌≡◌, ◌≤◌, decimal};
ghost use Rattle.naming.specs.Texts.{decimal_text, last_digits};
ghost use Rattle.naming.specs.Laws.{decimal_lawful};

use crate::letter::Letter;
use crate::naming::Naming;
use crate::text::write_in_base;
use hir::refusal::Refusal;

// Decimal digits without leading zeros.
#[derive(Clone, Copy)]
pub struct Decimal;

impl Naming for Decimal {
    ghost text = { λ _. decimal_text };

    ghost keeps = { λ s. decimal_lawful };

    fn write(&self, letter: Letter, number: u16, buffer: &mut [u8]) -> Result<usize, Refusal> {
        write_in_base(letter, number, 10, digit_count(number), buffer)
    }
}

// How many decimal digits the number has, without leading zeros: 0 has one.
#[tactic(auto, using(crate::specs::LastDigits::decimal_count))]
fn digit_count(number: u16) -> usize
    ensures all { last_digits 10 result number ≡ decimal number }
    ensures few { result ≤ 5 }
{
    number.max(1).ilog10() as usize + 1
}
