//! Looks at the next token, and takes it.

ghost use Rattle.std.specs.Prelude.{◌≡◌, ◌<◌, ◌≤◌, true, false, length, if◌then◌else◌, None, IfOk, IfSome};
ghost use Rattle.std.specs.Bool.{OnTrue};
ghost use Rattle.ssi_lexer.specs.Readings.{after_next, GoesOn, IsShort, taken_of};
ghost use Rattle.ssi_lexer.specs.TokenTests.{begins_with as begins_with_one, number, of_kind, sees, test_of};
ghost use Rattle.ssi_lexer.specs.Lexemes.{value_of_digits};
ghost use Rattle.ssi_lexer.specs.Scan.{lexeme_of};

use crate::token::{Token, TokenKind};
use crate::tokens::Tokens;
use crate::wanted::{Stop, Wanted};

/// Whether there are two characters at least, of which the first is one of the letters.
#[inline(always)]
fn begins_with(letters: &[u8], characters: &[u8]) -> bool
    ensures { result ≡ begins_with_one letters.now characters.now }
{
    match characters {
        [first, _, ..] => letters.contains(first),
        _ => false,
    }
}

/// The number that at most seven digits stand for.
fn value(digits: &[u8]) -> u32
    requires { length digits.now ≤ 7 }
    ensures { result ≡ value_of_digits digits.now }
{
    let mut value = 0;
    for digit in digits {
        value = 10 * value + u32::from(digit.saturating_sub(b'0'));
    }
    value
}

/// Whether the token with these characters is such a one. Nearly each caller names what it wants, so that one
/// arm alone is left of this where it stands in the caller.
#[inline(always)]
fn fits(wanted: Wanted<'_>, token: Token, characters: &[u8]) -> bool
    ensures { result ≡ test_of wanted.entry (lexeme_of token characters.now) }
{
    match wanted {
        Wanted::Word(letters) => token.kind == TokenKind::Word && characters == letters,
        Wanted::Name(name) => token.kind == TokenKind::Name && characters == name,
        Wanted::Identity(letters) => {
            token.kind == TokenKind::Name && begins_with(letters, characters)
        }
        Wanted::Kind(kind) => token.kind == kind,
    }
}

impl<'a> Tokens<'a> {
    /// The number that comes next, below 10,000,000; none where no number does.
    pub fn first_number(&self) -> Option<u32>
        ensures some { IfSome result (λ n. sees (number n) self.now.left ≡ true) }
        ensures none { result ≡ None → sees (of_kind TokenKind.Number) self.now.left ≡ false }
    {
        match self.first() {
            Some(token) => match token.kind {
                TokenKind::Number => Some(value(self.first_text())),
                _ => None,
            },
            None => None,
        }
    }

    /// Whether such a token comes next.
    #[inline(always)]
    pub fn sees(&self, wanted: Wanted<'_>) -> bool
        ensures { result ≡ sees (test_of wanted.entry) self.now.left }
    {
        match self.first() {
            Some(token) => fits(wanted, token, self.first_text()),
            None => false,
        }
    }

    /// Takes such a token, if it comes next, and answers whether it did.
    #[inline(always)]
    pub fn eat(&mut self, wanted: Wanted<'_>) -> bool
        ensures seen { result ≡ sees (test_of wanted.entry) self.old.left }
        ensures moved { self.new ≡ (if result then after_next self.old else self.old) }
        ensures fewer { OnTrue result (length self.new.left < length self.old.left) }
        ensures goes_on { GoesOn self.old self.new }
    {
        let seen = self.sees(wanted);
        if seen {
            self.skip();
        }
        seen
    }

    /// Takes such a token, which must come next. After `Syntax`, the only error, nothing was taken.
    #[inline(always)]
    pub fn take(&mut self, wanted: Wanted<'_>) -> Result<Token, Stop>
        ensures answer { result ≡ taken_of (test_of wanted.entry) self.old.left }
        ensures moved { self.new ≡ (if sees (test_of wanted.entry) self.old.left then after_next self.old else self.old) }
        ensures short { IfOk result IsShort }
        ensures goes_on { GoesOn self.old self.new }
    {
        match self.first() {
            Some(token) if fits(wanted, token, self.first_text()) => {
                self.skip();
                Ok(token)
            }
            _ => Err(Stop::Syntax),
        }
    }
}
