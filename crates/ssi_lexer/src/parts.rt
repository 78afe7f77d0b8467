//! Parts of a text by a grammar, and lists of them.

ghost use Rattle.std.specs.Prelude.{◌≡◌, Bool, List, []};
ghost use Rattle.ssi_lexer.specs.Lexemes.{Lexeme};
ghost use Rattle.ssi_lexer.specs.Laws.{Good, Always, StartsWith};
ghost use Rattle.ssi_lexer.specs.Parsers.{Outcome, Reads, ReadsAll, separated as separated_of, turns};
ghost use Rattle.ssi_lexer.specs.Readings.{GoesOn};
ghost use Rattle.ssi_lexer.specs.TokenTests.{sees};

use crate::token::TokenKind;
use crate::tokens::Tokens;
use crate::wanted::{Stop, Wanted};
use std::alloc::Global;

/// A part of a text by a grammar: which tokens spell it, and a reader of it.
pub trait Part {
    /// What is read of it.
    type Tree: Drop;

    /// Which tokens spell which tree.
    ghost language: { Self → Self.Tree → List Lexeme → Type 0 };

    /// The reader as a function of the tokens that are left.
    ghost parser: { Self → List Lexeme → Outcome Self.Tree };

    /// Reads it. After an error the tokens stand where they stood, or further on; after `Syntax` before
    /// the token that fits nothing, after `TooDeep` before the one that opens a level too deep.
    fn read(&self, alloc: Global, tokens: &mut Tokens<'_>) -> Result<Self::Tree, Stop>
        ensures reads { Reads (parser self.now tokens.old.left) result tokens.new.left }
        ensures goes_on { GoesOn tokens.old tokens.new };

    /// The reader is one of the language, whatever follows.
    ghost good: { (part : Self) → Good Self.Tree (parser part) (language part) Always Always };
}

/// A part of which the first token tells that it comes.
pub trait Entry: Part {
    /// Whether it begins with a token.
    ghost opens: { Self → Lexeme → Bool };

    /// Whether one comes next.
    fn begins(&self, tokens: &Tokens<'_>) -> bool
        ensures { result ≡ sees (opens self.now) tokens.now.left };

    /// It begins with such a token.
    ghost starts: { (entry : Self) (tree : Self.Tree) (tokens : List Lexeme) → Self.Part.language entry tree tokens → StartsWith (opens entry) tokens };
}

/// Reads one part or more, with `,` between. A large text has very many short lists, so they keep no spare
/// memory.
pub fn separated<P: Part>(
    part: &P,
    alloc: Global,
    tokens: &mut Tokens<'_>,
) -> Result<Vec<P::Tree>, Stop>
    ensures reads { ReadsAll (separated_of (P.parser part.now) tokens.old.left) result tokens.new.left }
    ensures goes_on { GoesOn tokens.old tokens.new }
{
    let mut all = Vec::new(alloc);
    all.push(part.read(alloc, tokens)?)?;
    'parts: while tokens.eat(Wanted::Kind(TokenKind::Comma)) {
        all.push(part.read(alloc, tokens)?)?;
    }
    all.shrink_to_fit();
    Ok(all)
}

/// Reads entries as long as one comes next.
pub fn entries<E: Entry>(
    entry: &E,
    alloc: Global,
    tokens: &mut Tokens<'_>,
) -> Result<Vec<E::Tree>, Stop>
    ensures reads { ReadsAll (turns (E.opens entry.now) (E.Part.parser entry.now) [] tokens.old.left) result tokens.new.left }
    ensures goes_on { GoesOn tokens.old tokens.new }
{
    let mut all = Vec::new(alloc);
    'entries: while entry.begins(tokens) {
        all.push(entry.read(alloc, tokens)?)?;
    }
    Ok(all)
}
