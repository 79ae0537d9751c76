//! Hexadecimal digits of upper case, two for each byte, and no memory taken for them.
ghost use Rattle.std.specs.Prelude.{◌≡◌, ◌<◌, ◌*◌, length, slice_index};
ghost use Rattle.hex.specs.Hex.{encode_upper, upper_digits};

/// Writes the digits of bytes into a slice twice as long.
#[inline(always)]
pub(crate) fn write_digits(bytes: &[u8], digits: &mut [u8])
    requires { length digits.old ≡ 2 * length bytes.now }
    ensures { digits.new ≡ encode_upper bytes.now }
{
    'bytes: for i in 0..bytes.len() {
        let byte = bytes[i];
        digits[2 * i] = digit(byte / 16);
        digits[2 * i + 1] = digit(byte % 16);
    }
}

// The digit of this value, by a sum and no table, so that many are written at once.
#[inline(always)]
fn digit(value: u8) -> u8
    requires { value < 16 }
    ensures { result ≡ slice_index upper_digits value }
{
    if value < 10 { value + 48 } else { value + 55 }
}
