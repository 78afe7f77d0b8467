//! Takes names and words, each as its place in the text.

ghost use Rattle.std.specs.Prelude.{◌≡◌, ◌<◌, ◌||◌, length, IfErr, IfOk};
ghost use Rattle.ssi_lexer.specs.Parsers.{Reads, tok};
ghost use Rattle.ssi_lexer.specs.Readings.{after_next, GoesOn, IsShort};
ghost use Rattle.ssi_lexer.specs.TokenTests.{dot as dot_test, identity as identity_test, test_of, word as word_test};
ghost use Rattle.ssi_terms.specs.Read.{spot as spot_of_test};
ghost use Rattle.ssi_terms.specs.Tests.{any_identity as any_identity_test, any_number, is_rule_word as is_rule_word_of, rule_word as rule_word_test, spot_at};

use crate::tree::Spot;
use ssi_lexer::{Stop, Token, TokenKind, Tokens, Wanted};

/// Takes such a token, which must come next.
#[tactic(auto, unfolding(ssi_lexer::specs::Parsers::tok))]
#[inline(always)]
pub fn token(tokens: &mut Tokens<'_>, wanted: Wanted<'_>) -> Result<Token, Stop>
    ensures reads { Reads (tok (test_of wanted.entry) tokens.old.left) result tokens.new.left }
    ensures short { IfOk result IsShort }
    ensures goes_on { GoesOn tokens.old tokens.new }
{
    tokens.take(wanted)
}

/// Takes `.`, which must come next.
pub fn dot(tokens: &mut Tokens<'_>) -> Result<Token, Stop>
    ensures reads { Reads (tok dot_test tokens.old.left) result tokens.new.left }
    ensures goes_on { GoesOn tokens.old tokens.new }
{
    token(tokens, Wanted::Kind(TokenKind::Dot))
}

/// Takes the name of an identity whose first letter is one of these, which must come next.
#[tactic(auto, unfolding(crate::specs::Read::spot, ssi_lexer::specs::Parsers::tok))]
#[inline]
pub fn identity(tokens: &mut Tokens<'_>, letters: &[u8]) -> Result<Spot, Stop>
    ensures reads { Reads (spot_of_test (identity_test letters.now) tokens.old.left) result tokens.new.left }
    ensures stops { IfErr result (λ stop. stop ≡ Stop.Syntax) }
    ensures goes_on { GoesOn tokens.old tokens.new }
{
    let token = tokens.take(Wanted::Identity(letters))?;
    Ok(Spot::at(token))
}

/// Takes any number, which must come next.
#[tactic(auto, unfolding(crate::specs::Read::spot, ssi_lexer::specs::Parsers::tok))]
#[inline]
pub fn number(tokens: &mut Tokens<'_>) -> Result<Spot, Stop>
    ensures reads { Reads (spot_of_test any_number tokens.old.left) result tokens.new.left }
    ensures goes_on { GoesOn tokens.old tokens.new }
{
    let token = tokens.take(Wanted::Kind(TokenKind::Number))?;
    Ok(Spot::at(token))
}

/// Takes the word with these letters, which must come next.
#[tactic(auto, unfolding(crate::specs::Read::spot, ssi_lexer::specs::Parsers::tok))]
#[inline]
pub fn word(tokens: &mut Tokens<'_>, letters: &[u8]) -> Result<Spot, Stop>
    requires { length letters.now < 256 }
    ensures reads { Reads (spot_of_test (word_test letters.now) tokens.old.left) result tokens.new.left }
    ensures goes_on { GoesOn tokens.old tokens.new }
{
    let token = tokens.take(Wanted::Word(letters))?;
    Ok(Spot::at(token))
}

/// Takes the next token, which is this one, and answers where it stands.
fn taken(tokens: &mut Tokens<'_>, token: Token) -> Spot
    requires { token.len < 256 }
    ensures spot { result ≡ spot_at token }
    ensures moved { tokens.new ≡ after_next tokens.old }
    ensures goes_on { GoesOn tokens.old tokens.new }
{
    tokens.skip();
    Spot::at(token)
}

/// Takes one of these two words, which must come next.
#[tactic(auto, unfolding(crate::specs::Read::spot, ssi_lexer::specs::Parsers::tok))]
pub fn one_of_words(tokens: &mut Tokens<'_>, first: &[u8], second: &[u8]) -> Result<Spot, Stop>
    requires first { length first.now < 256 }
    requires second { length second.now < 256 }
    ensures reads { Reads (spot_of_test (λ lexeme. word_test first.now lexeme || word_test second.now lexeme) tokens.old.left) result tokens.new.left }
    ensures goes_on { GoesOn tokens.old tokens.new }
{
    let letters = tokens.first_text();
    match tokens.first() {
        Some(token) if token.kind == TokenKind::Word && (letters == first || letters == second) => {
            Ok(taken(tokens, token))
        }
        _ => Err(Stop::Syntax),
    }
}

/// Takes the name of an identity of any kind but a request's, which must come next.
pub fn any_identity(tokens: &mut Tokens<'_>) -> Result<Spot, Stop>
    ensures reads { Reads (spot_of_test any_identity_test tokens.old.left) result tokens.new.left }
    ensures stops { IfErr result (λ stop. stop ≡ Stop.Syntax) }
    ensures goes_on { GoesOn tokens.old tokens.new }
{
    identity(tokens, b"PSTRUL")
}

/// Whether these letters are a word of a test or a command.
fn is_rule_word(letters: &[u8]) -> bool
    ensures { result ≡ is_rule_word_of letters.now }
{
    matches!(
        letters,
        b"cn"
            | b"cr"
            | b"cnf"
            | b"crf"
            | b"dn"
            | b"dr"
            | b"xdn"
            | b"xdr"
            | b"lp"
            | b"xlp"
            | b"c"
            | b"o"
            | b"s"
            | b"xs"
            | b"xa"
            | b"a"
            | b"l"
            | b"f"
            | b"h"
    )
}

/// Takes a word of a test or a command, which must come next.
#[tactic(auto, unfolding(crate::specs::Read::spot, ssi_lexer::specs::Parsers::tok))]
pub fn rule_word(tokens: &mut Tokens<'_>) -> Result<Spot, Stop>
    ensures reads { Reads (spot_of_test rule_word_test tokens.old.left) result tokens.new.left }
    ensures stops { IfErr result (λ stop. stop ≡ Stop.Syntax) }
    ensures goes_on { GoesOn tokens.old tokens.new }
{
    match tokens.first() {
        Some(token) if token.kind == TokenKind::Word && is_rule_word(tokens.first_text()) => {
            Ok(taken(tokens, token))
        }
        _ => Err(Stop::Syntax),
    }
}
