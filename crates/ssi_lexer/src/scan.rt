//! Cuts one token off a text, with the separators and comments before it.

ghost use Rattle.std.specs.Prelude.{◌≡◌, ◌+◌, ◌<◌, ◌≤◌, if◌then◌else◌, ◌∷◌, [], length, IfSome, IfNone};
ghost use Rattle.std.specs.List.{prefix_len};
ghost use Rattle.ssi_lexer.specs.Pieces.{Separator, Comment, A, lengthens, is_piece, is_separator as is_separator_of, is_number as is_number_of};
ghost use Rattle.ssi_lexer.specs.Scan as spec;
ghost use Rattle.ssi_lexer.specs.Scan.{IsWithin, IsNoGap, IsPastGap, AreItsCharacters, IsFront};

use crate::token::{BAD_CHARACTER, BAD_NUMBER, LONG_NAME, LexFault, TextEnd, Token, TokenKind};
use ssi_base::Place;

/// Where a text goes on.
#[derive(Clone, Copy)]
pub struct Cursor {
    /// How many bytes stand before.
    pub start: u32,
    /// How many tokens stand before.
    pub number: u32,
    /// The place of the next byte.
    pub place: Place,
}

/// What comes next.
#[derive(Clone, Copy)]
pub enum Ahead {
    /// A token.
    Next(Token),
    /// No more tokens.
    End(TextEnd),
}

/// What stands in front of a text, and where the text goes on.
#[derive(Clone, Copy)]
pub struct Front<'a> {
    /// The token, or the end.
    pub ahead: Ahead,
    /// The characters of the token.
    pub characters: &'a [u8],
    /// Where the text goes on.
    pub cursor: Cursor,
    /// What is left of the text there.
    pub rest: &'a [u8],
}

/// Goes past bytes of no token with no line feed among them.
fn go_right(cursor: &mut Cursor, count: u32)
    requires { IsWithin cursor.old count }
    ensures { cursor.new ≡ spec.right cursor.old count }
{
    cursor.start += count;
    cursor.place.column += count;
}

fn is_separator(byte: u8) -> bool
    ensures { result ≡ is_separator_of byte }
{
    matches!(byte, b' ' | b'\t' | b'\r' | b'\n')
}

fn go_past_separator(cursor: &mut Cursor, byte: u8)
    requires { IsWithin cursor.old 1 }
    ensures { cursor.new ≡ spec.past cursor.old Separator (byte ∷ []) }
{
    if byte != b'\n' {
        return go_right(cursor, 1);
    }
    cursor.start += 1;
    cursor.place.line += 1;
    cursor.place.column = 1;
}

/// How many bytes stand before the next line feed, or the end.
fn line_len(bytes: &[u8]) -> usize
    ensures value { result ≡ prefix_len (lengthens Comment) bytes.now }
    ensures within { result ≤ length bytes.now }
{
    bytes.iter().take_while(|byte| **byte != b'\n').count()
}

/// Goes past the comment that goes on in these bytes, and answers what is left of them.
fn go_past_comment<'a>(cursor: &mut Cursor, more: &'a [u8]) -> &'a [u8]
    requires { IsWithin cursor.old (1 + length more.now) }
    ensures cursor { cursor.new ≡ spec.past cursor.old Comment (47 ∷ spec.run_of Comment more.now) }
    ensures rest { result.now ≡ spec.rest_of Comment more.now }
    ensures shorter { length result.now ≤ length more.now }
    ensures within { IsWithin cursor.new (length result.now) }
{
    let (line, rest) = more.split_at(line_len(more));
    go_right(cursor, 1 + line.len() as u32);
    rest
}

/// Goes past the separator or the comment that begins with the byte and goes on in the others, if one does, and
/// answers what is left of them.
fn go_past_gap<'a>(first: u8, more: &'a [u8], cursor: &mut Cursor) -> Option<&'a [u8]>
    requires { IsWithin cursor.old (1 + length more.now) }
    ensures gap { IfSome result (λ rest. IsPastGap cursor.new rest.now cursor.old (first ∷ more.now)) }
    ensures none { IfNone result (IsNoGap first) }
    ensures same { IfNone result (cursor.new ≡ cursor.old) }
{
    // Most tokens begin with a letter or a digit, which one comparison tells.
    if first > b'/' {
        return None;
    }
    if is_separator(first) {
        go_past_separator(cursor, first);
        return Some(more);
    }
    if first == b'/' {
        return Some(go_past_comment(cursor, more));
    }
    None
}

/// The kind of the token that begins with the byte.
fn kind_at(byte: u8) -> Option<TokenKind>
    ensures { result ≡ spec.token_kind_at byte }
{
    // Letters come most, and are told first.
    if byte >= b'a' {
        return (byte <= b'z').then_some(TokenKind::Word);
    }
    if byte >= b'A' {
        return (byte <= b'Z').then_some(TokenKind::Name);
    }
    match byte {
        b'0'..=b'9' => Some(TokenKind::Number),
        b',' => Some(TokenKind::Comma),
        b'.' => Some(TokenKind::Dot),
        b'(' => Some(TokenKind::Open),
        b')' => Some(TokenKind::Close),
        _ => None,
    }
}

fn is_in_name(byte: u8) -> bool
    ensures { result ≡ lengthens (A TokenKind.Name) byte }
{
    // Most are letters, and most that end a name are a space, a comma or a line feed: these are told first.
    if byte >= b'A' {
        return byte <= b'Z';
    }
    if byte < b'-' {
        return false;
    }
    matches!(byte, b'0'..=b'9' | b'-')
}

/// How many bytes of the text make a token longer that begins just before it.
fn run_len(kind: TokenKind, rest: &[u8]) -> usize
    ensures value { result ≡ prefix_len (lengthens (A kind)) rest.now }
    ensures within { result ≤ length rest.now }
{
    match kind {
        TokenKind::Name => rest.iter().take_while(|byte| is_in_name(**byte)).count(),
        TokenKind::Word => rest
            .iter()
            .take_while(|byte| **byte >= b'a' && **byte <= b'z')
            .count(),
        TokenKind::Number => rest
            .iter()
            .take_while(|byte| **byte >= b'0' && **byte <= b'9')
            .count(),
        TokenKind::Comma | TokenKind::Dot | TokenKind::Open | TokenKind::Close => 0,
    }
}

/// Whether a run of digits is a number.
fn is_number(digits: &[u8]) -> bool
    requires { 0 < length digits.now }
    ensures { result ≡ is_number_of digits.now }
{
    if digits[0] == b'0' {
        return digits.len() == 1;
    }
    digits.len() <= 7
}

/// The code of a run of the kind that is no token.
fn code_of(kind: TokenKind, characters: &[u8]) -> Option<u8>
    requires { 0 < length characters.now }
    ensures { result ≡ (if is_piece (A kind) characters.now then None else Some (spec.code_of (A kind))) }
{
    match kind {
        TokenKind::Name if characters.len() > 16 => Some(LONG_NAME),
        TokenKind::Number if !is_number(characters) => Some(BAD_NUMBER),
        _ => None,
    }
}

/// No more tokens: what is left of the text begins with none.
fn end<'a>(front: &mut Front<'a>, end: TextEnd)
    requires { IsWithin front.old.cursor (length front.old.rest.now) }
    ensures tokens { spec.tokens_of front.new ≡ spec.no_more end }
    ensures within { IsWithin front.new.cursor (length front.new.rest.now) }
    ensures characters { AreItsCharacters front.new.ahead front.new.characters.now }
{
    front.ahead = Ahead::End(end);
    front.characters = &[];
}

/// A fault at the next byte.
fn fault<'a>(front: &mut Front<'a>, code: u8)
    requires { IsWithin front.old.cursor (length front.old.rest.now) }
    ensures tokens { spec.tokens_of front.new ≡ spec.faulty_here front.old.cursor code }
    ensures within { IsWithin front.new.cursor (length front.new.rest.now) }
    ensures characters { AreItsCharacters front.new.ahead front.new.characters.now }
{
    let place = front.cursor.place;
    end(front, TextEnd::Faulty(LexFault { code, place }))
}

/// A token, and what is left of the text after it.
fn one<'a>(front: &mut Front<'a>, kind: TokenKind, characters: &'a [u8], rest: &'a [u8])
    requires some { 0 < length characters.now }
    requires within { IsWithin front.old.cursor (length characters.now + length rest.now) }
    ensures ahead { front.new.ahead ≡ Ahead.Next (spec.token_at kind front.old.cursor (length characters.now)) }
    ensures characters { front.new.characters.now ≡ characters.now }
    ensures cursor { front.new.cursor ≡ spec.past_token front.old.cursor (length characters.now) }
    ensures rest { front.new.rest.now ≡ rest.now }
    ensures within { IsWithin front.new.cursor (length front.new.rest.now) }
{
    let len = characters.len() as u32;
    front.ahead = Ahead::Next(Token {
        kind,
        start: front.cursor.start,
        len,
        number: front.cursor.number,
        place: front.cursor.place,
    });
    front.characters = characters;
    front.cursor.start += len;
    front.cursor.number += 1;
    front.cursor.place.column += len;
    front.rest = rest;
}

/// The token that begins with the first byte of the text and goes on in the others, or the fault there.
fn cut_token<'a>(first: u8, more: &'a [u8], front: &mut Front<'a>)
    requires parts { front.old.rest.now ≡ first ∷ more.now }
    requires no_gap { IsNoGap first }
    requires within { IsWithin front.old.cursor (length front.old.rest.now) }
    ensures { IsFront front.new front.old.cursor front.old.rest.now }
{
    let Some(kind) = kind_at(first) else {
        return fault(front, BAD_CHARACTER);
    };
    let (characters, rest) = front.rest.split_at(1 + run_len(kind, more));
    match code_of(kind, characters) {
        None => one(front, kind, characters, rest),
        Some(code) => fault(front, code),
    }
}

/// Puts in front what stands next, past separators and comments. It is written in place, since a `Front` is large.
#[inline(never)]
pub fn cut_front<'a>(front: &mut Front<'a>)
    requires { IsWithin front.old.cursor (length front.old.rest.now) }
    ensures { IsFront front.new front.old.cursor front.old.rest.now }
{
    while let [first, more @ ..] = front.rest {
        match go_past_gap(*first, more, &mut front.cursor) {
            Some(rest) => front.rest = rest,
            None => return cut_token(*first, more, front),
        }
    }
    end(front, TextEnd::Finished(front.cursor.place));
}

/// What stands in front of a text from its cursor on.
pub fn front_of<'a>(cursor: Cursor, bytes: &'a [u8]) -> Front<'a>
    requires { IsWithin cursor (length bytes.now) }
    ensures { IsFront result cursor bytes.now }
{
    let mut front = Front {
        ahead: Ahead::End(TextEnd::Finished(cursor.place)),
        characters: &[],
        cursor,
        rest: bytes,
    };
    cut_front(&mut front);
    front
}
