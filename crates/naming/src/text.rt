// Writing a text: a hash, the letter and digits.
ghost use Rattle.std.specs.Prelude.{◌≡◌, ◌+◌, ◌<◌, ◌≤◌, ◌^◌};
ghost use Rattle.naming.specs.Texts.{last_digits, name_text, write_answer, write_bytes};

use crate::digits::write_digits;
use crate::letter::Letter;
use hir::refusal::Refusal;

// Writes the text with the last `count` digits of the number, or refuses a buffer that is shorter.
pub(crate) fn write_in_base(
    letter: Letter,
    number: u16,
    base: u16,
    count: usize,
    buffer: &mut [u8],
) -> Result<usize, Refusal>
    requires least { 2 ≤ base }
    requires most { base ≤ 16 }
    requires few { count ≤ 8 }
    ensures value { result ≡ write_answer (name_text letter (last_digits base count number)) buffer.old }
    ensures bytes { buffer.new ≡ write_bytes (name_text letter (last_digits base count number)) buffer.old }
{
    let end = 2 + count;
    if buffer.len() < end {
        return Err(Refusal::Buffer);
    }
    buffer[0] = b'#';
    buffer[1] = letter.byte();
    write_digits(&mut buffer[2..end], number, base);
    Ok(end)
}
