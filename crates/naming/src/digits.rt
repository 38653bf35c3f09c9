// Digits of a number in a base of at most 16.
ghost use Rattle.std.specs.Prelude.{◌≡◌, ◌<◌, ◌≤◌, length};
ghost use Rattle.naming.specs.Texts.{digit_byte, last_digits};

// Fills the places with the last digits of the number, the lowest at the end.
pub(crate) fn write_digits(places: &mut [u8], number: u16, base: u16)
    requires least { 2 ≤ base }
    requires most { base ≤ 16 }
    ensures { places.new ≡ last_digits base (length places.old) number }
{
    let mut rest = number;
    // Places are counted: behind an adapter of `iter_mut`, as `rev`, nothing is known of what was written.
    for place in (0..places.len()).rev() {
        places[place] = digit_byte((rest % base) as u8);
        rest /= base;
    }
}

// The byte of one digit, lower-case.
fn digit_byte(digit: u8) -> u8
    requires { digit < 16 }
    ensures { result ≡ digit_byte digit }
{
    b"0123456789abcdef"[digit as usize]
}
