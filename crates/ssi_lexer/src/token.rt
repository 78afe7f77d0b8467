//! Tokens, and the faults of a text that no token begins with.

use ssi_base::Place;

/// What a token is.
#[derive(Clone, Copy, Debug, PartialEq, Eq)]
pub enum TokenKind {
    /// A capital letter, then capital letters, digits and hyphens: 1 to 16 characters in all.
    Name,
    /// A run of small letters.
    Word,
    /// A run of 1 to 7 digits with no leading zero, but for the single digit 0.
    Number,
    /// The mark `,`.
    Comma,
    /// The mark `.`.
    Dot,
    /// The mark `(`.
    Open,
    /// The mark `)`.
    Close,
}

/// A token of a text.
#[derive(Clone, Copy, Debug, PartialEq, Eq)]
pub struct Token {
    /// What it is.
    pub kind: TokenKind,
    /// How many bytes of the text stand before it.
    pub start: u32,
    /// Its length in bytes.
    pub len: u32,
    /// How many tokens stand before it.
    pub number: u32,
    /// The place of its first byte.
    pub place: Place,
}

/// The code of a byte that begins no token, comment or separator.
pub const BAD_CHARACTER: u8 = 1;

/// The code of a name of more than 16 characters.
pub const LONG_NAME: u8 = 2;

/// The code of a run of digits that is no number.
pub const BAD_NUMBER: u8 = 3;

/// Where a text goes on with no token, and why.
#[derive(Clone, Copy, Debug, PartialEq, Eq)]
pub struct LexFault {
    /// `BAD_CHARACTER`, `LONG_NAME` or `BAD_NUMBER`.
    pub code: u8,
    /// The place of the byte, of the name's first character, or of the run's first digit.
    pub place: Place,
}

/// How the tokens of a text end.
#[derive(Clone, Copy, Debug, PartialEq, Eq)]
pub enum TextEnd {
    /// The text ends; this is the place just past its last byte.
    Finished(Place),
    /// The text goes on with a fault.
    Faulty(LexFault),
}
