// Numbers and bytes as they are printed.
ghost use Rattle.std.specs.Prelude.{◌≡◌, ◌<◌, decimal};
ghost use Rattle.ssi_base.specs.Digits.{hex_digit, hex_of};

use arrayvec::ArrayVec;
use itoa::write_digits;

/// The decimal digits of a number, without leading zeros.
pub fn decimal(n: u64) -> ArrayVec<u8, 20>
    ensures { result.items ≡ decimal n }
{
    let mut digits = [0; 20];
    let start = write_digits(n, &mut digits, 20);
    let mut text = ArrayVec::new();
    match text.try_extend_from_slice(&digits[start..]) {
        Ok(()) => text,
        Err(_) => unreachable!(),
    }
}

/// Two upper-case hexadecimal digits for each byte, the higher digit first.
pub fn hex4(bytes: [u8; 4]) -> ArrayVec<u8, 8>
    ensures { result.items ≡ hex_of bytes }
{
    let [first, second, third, fourth] = bytes;
    ArrayVec::from([
        hex_digit(first / 16),
        hex_digit(first % 16),
        hex_digit(second / 16),
        hex_digit(second % 16),
        hex_digit(third / 16),
        hex_digit(third % 16),
        hex_digit(fourth / 16),
        hex_digit(fourth % 16),
    ])
}

fn hex_digit(value: u8) -> u8
    requires { value < 16 }
    ensures { result ≡ hex_digit value }
{
    if value < 10 {
        b'0' + value
    } else {
        b'A' + (value - 10)
    }
}
