//! A reader of tokens.

ghost use Rattle.std.specs.Prelude.{◌≡◌, ℕ, ◌≤◌, List, length, All, IfSome};
ghost use Rattle.ssi_lexer.specs.declared.token.TextEnd.{TextEnd as End};
ghost use Rattle.ssi_lexer.specs.Limits.{text_limit};
ghost use Rattle.ssi_lexer.specs.Lexemes.{Lexeme, AreTokens, IsLexeme, StandsIn};
ghost use Rattle.ssi_lexer.specs.Readings.{first_of, first_text as text_of_first, answer_at, after_next, end_if, IsShort};
ghost use Rattle.ssi_lexer.specs.Spelling.{next_place};

use crate::scan::{Ahead, Cursor, Front, cut_front, front_of};
use crate::token::{LexFault, TextEnd, Token};
use ssi_base::Place;
use std::marker::Model;

/// The tokens of a text that are left.
#[derive(Drop)]
pub struct Tokens<'a> {
    text: &'a [u8],
    position: usize,
    front: Front<'a>,
}

impl<'a> Model for Tokens<'a> {
    ghost use Rattle.ssi_lexer.specs.Readings.{Reading};

    ghost Value = { Reading };

    ghost use Rattle.ssi_lexer.specs.Shown.{shown, IsKept};

    ghost view = { shown };

    ghost invariant = { IsKept };
}

impl<'a> Tokens<'a> {
    /// The tokens from a byte of the text on, with line 1 and column 1 there.
    pub fn new(text: &'a [u8], start: usize) -> Tokens<'a>
        requires within { start ≤ length text.now }
        requires short { length text.now ≤ text_limit }
        ensures text { result.text ≡ text.now }
        ensures position { result.position ≡ start }
        ensures tokens { AreTokens text.now start result.left result.end }

        // The text has no others from there on.
        ensures only { (lexemes : List Lexeme) (end : End) → AreTokens text.now start lexemes end
            → (lexemes ≡ result.left) × (end ≡ result.end) }
    {
        let cursor = Cursor {
            start: start as u32,
            number: 0,
            place: Place { line: 1, column: 1 },
        };
        Tokens {
            text,
            position: start,
            front: front_of(cursor, &text[start..]),
        }
    }

    /// Takes the next token: nothing at the end of the text. A fault is not passed, and comes again.
    pub fn next(&mut self) -> Result<Option<Token>, LexFault>
        ensures answer { result ≡ answer_at self.old.left self.old.end }
        ensures moved { self.new ≡ after_next self.old }
    {
        let answer = self.peek();
        self.skip();
        answer
    }

    /// What [`next`](Tokens::next) would answer.
    pub fn peek(&self) -> Result<Option<Token>, LexFault>
        ensures { result ≡ answer_at self.now.left self.now.end }
    {
        match self.front.ahead {
            Ahead::Next(token) => Ok(Some(token)),
            Ahead::End(TextEnd::Finished(_)) => Ok(None),
            Ahead::End(TextEnd::Faulty(fault)) => Err(fault),
        }
    }

    /// The byte past the last token taken, or the start where none was taken.
    pub fn position(&self) -> usize
        ensures { result ≡ self.now.position }
    {
        self.position
    }

    /// The whole text.
    pub fn text(&self) -> &'a [u8]
        ensures { result.now ≡ self.now.text }
    {
        self.text
    }

    /// The next token, if one is left before the end of the text or its first fault.
    pub fn first(&self) -> Option<Token>
        ensures token { result ≡ first_of self.now.left }
        ensures short { IfSome result IsShort }

        // Of all that are left, and not of the next alone.
        ensures formed { All IsLexeme self.now.left }
    {
        match self.front.ahead {
            Ahead::Next(token) => Some(token),
            Ahead::End(_) => None,
        }
    }

    /// The characters of the next token, a part of the text: none where no token is left.
    pub fn first_text(&self) -> &'a [u8]
        ensures characters { result.now ≡ text_of_first self.now.left }

        // Of all that are left, and not of the next alone.
        ensures stand { All (StandsIn self.now.text) self.now.left }
    {
        self.front.characters
    }

    /// Goes past the next token, if one is left.
    pub fn skip(&mut self)
        ensures { self.new ≡ after_next self.old }
    {
        if let Ahead::Next(token) = self.front.ahead {
            self.position = token.start as usize + token.len as usize;
            cut_front(&mut self.front);
        }
    }

    /// The place of the next token, or of the end of the text where none is left; the fault where the text
    /// goes on with one.
    pub fn place(&self) -> Result<Place, LexFault>
        ensures { result ≡ next_place self.now.left self.now.end }
    {
        match self.front.ahead {
            Ahead::Next(token) => Ok(token.place),
            Ahead::End(TextEnd::Finished(past)) => Ok(past),
            Ahead::End(TextEnd::Faulty(found)) => Err(found),
        }
    }

    /// How the tokens end, where none is left: with the text, or at a fault.
    pub fn end(&self) -> Option<TextEnd>
        ensures { result ≡ end_if self.now.left self.now.end }
    {
        match self.front.ahead {
            Ahead::Next(_) => None,
            Ahead::End(end) => Some(end),
        }
    }
}

/// A text has one cutting: its tokens, their places and their end are determined.
pub fn one_cutting()
    ensures some { (text : List ℕ) (start : ℕ)
        → (lexemes : List Lexeme) × (end : End) × AreTokens text start lexemes end }
    ensures one { (text : List ℕ) (start : ℕ) (a b : List Lexeme) (e f : End)
        → AreTokens text start a e → AreTokens text start b f → (a ≡ b) × (e ≡ f) }
{}

/// Each token of a text is a piece of its kind by itself, and stands in the text at its start.
pub fn tokens_stand()
    ensures formed { (text : List ℕ) (start : ℕ) (lexemes : List Lexeme) (end : End)
        → AreTokens text start lexemes end → All IsLexeme lexemes }
    ensures stand { (text : List ℕ) (start : ℕ) (lexemes : List Lexeme) (end : End)
        → start ≤ length text → AreTokens text start lexemes end → All (StandsIn text) lexemes }
{}
