//! The characters of a name, a word or a number, the number that digits stand for, and the word for a lie.

ghost use Rattle.std.specs.Prelude.{◌≡◌, ◌≤◌, ◌+◌, ◌-◌, ◌*◌, min, length};
ghost use Rattle.ssi_names.specs.Declarations.{is_reverse as says_reverse};
ghost use Rattle.ssi_names.specs.Texts as spec;

use ssi_terms::Spot;

/// The characters of a name, a word or a number of the text.
pub fn characters<'a>(text: &'a [u8], spot: &Spot) -> &'a [u8]
    ensures value { result.now ≡ spec.characters text.now spot.now }
    ensures short { length result.now ≤ spot.now.len }
{
    let start = (spot.start as usize).min(text.len());
    let rest = &text[start..];
    let len = usize::from(spot.len).min(rest.len());
    &rest[..len]
}

/// The number that digits stand for; 255 where it is more.
pub fn small_number(text: &[u8], spot: &Spot) -> u8
    ensures { result ≡ min (spec.number text.now spot.now) 255 }
{
    let mut value: u8 = 0;
    for digit in characters(text, spot) {
        value = with_digit(value, *digit);
    }
    value
}

fn with_digit(value: u8, digit: u8) -> u8
    ensures { result ≡ min (10 * value + (digit - 48)) 255 }
{
    let more = 10 * u32::from(value) + u32::from(digit.saturating_sub(b'0'));
    more.min(255) as u8
}

/// Whether the word for a lie says reverse.
pub fn is_reverse(text: &[u8], word: &Spot) -> bool
    ensures { result ≡ says_reverse text.now word.now }
{
    characters(text, word) == b"cr".as_slice()
}
