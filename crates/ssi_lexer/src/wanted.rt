//! What the next token is to be, and why a reader stops.

use crate::token::TokenKind;
use ssi_base::OutOfMemory;
use std::alloc::{AllocError, AllocFailed};

/// What a token is to be.
#[derive(Clone, Copy, Debug)]
pub enum Wanted<'a> {
    /// The word with these letters.
    Word(&'a [u8]),
    /// The name with these characters.
    Name(&'a [u8]),
    /// The name of an identity: two characters at least, of which the first is one of these.
    Identity(&'a [u8]),
    /// Any token of this kind.
    Kind(TokenKind),
}

/// Why a reader stops.
#[derive(Clone, Copy, Debug, PartialEq, Eq)]
pub enum Stop {
    /// The next token fits nothing that may stand there, or more is needed where none is left. The
    /// reader stands before that token.
    Syntax,
    /// The next token opens a level more than may lie in one another. The reader stands before that token.
    TooDeep,
    /// Memory ran out.
    Memory,
}

impl From<AllocError> for Stop {
    ghost use Rattle.std.specs.Prelude.{◌≡◌};
    ghost use Rattle.ssi_lexer.specs.declared.wanted.Stop.TheVariants.{Memory};

    ghost from_gives = { λ _ stop. stop ≡ Memory };

    fn from(_refused: AllocError) -> Stop {
        Stop::Memory
    }
}

impl<T: Drop> From<AllocFailed<T>> for Stop {
    ghost use Rattle.std.specs.Prelude.{◌≡◌};
    ghost use Rattle.ssi_lexer.specs.declared.wanted.Stop.TheVariants.{Memory};

    ghost from_gives = { λ _ stop. stop ≡ Memory };

    fn from(_refused: AllocFailed<T>) -> Stop {
        Stop::Memory
    }
}

impl From<OutOfMemory> for Stop {
    ghost use Rattle.std.specs.Prelude.{◌≡◌};
    ghost use Rattle.ssi_lexer.specs.declared.wanted.Stop.TheVariants.{Memory};

    ghost from_gives = { λ _ stop. stop ≡ Memory };

    fn from(_refused: OutOfMemory) -> Stop {
        Stop::Memory
    }
}
