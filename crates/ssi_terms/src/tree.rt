//! Trees of the source: what an engineer wrote, with every name, word and number as its place in the
//! text. Each list is in written order.

use sqlite_items::Items;
use ssi_base::Place;
use ssi_lexer::Token;

/// A name, word or number of the text.
#[derive(Clone, Copy, Debug, PartialEq, Eq)]
pub struct Spot {
    /// How many bytes of the text stand before it.
    pub start: u32,
    /// Its length in bytes.
    pub len: u8,
    /// How many tokens stand before it.
    pub token: u32,
    /// The place of its first byte.
    pub place: Place,
}

impl Spot {
    ghost use Rattle.std.specs.Prelude.{◌≡◌, ◌<◌};
    ghost use Rattle.ssi_terms.specs.Tests.{spot_at};

    /// Where a token of less than 256 bytes stands.
    pub fn at(token: Token) -> Spot
        requires { token.len < 256 }
        ensures { result ≡ spot_at token }
    {
        Spot {
            start: token.start,
            len: token.len as u8,
            token: token.number,
            place: token.place,
        }
    }
}

/// A command: an identity and the word for its new value.
#[derive(Clone, Copy, Debug, PartialEq, Eq)]
pub struct CommandTree {
    pub name: Spot,
    pub word: Spot,
}

/// An item of a condition.
#[cycle(cond)]
#[derive(Drop)]
pub enum ItemTree {
    /// An identity and the word for the value that it is to have.
    Test { name: Spot, word: Spot },
    /// A bit of a report and whether it is to be high or low.
    Bit { number: Spot, word: Spot },
    /// A group, of which one alternative is to hold.
    Any(Items<CondTree>),
}

/// A condition: all of its items are to hold.
#[cycle(cond)]
#[derive(Drop)]
pub struct CondTree {
    pub items: Items<ItemTree>,
}

/// A part of a body.
#[cycle(body)]
#[derive(Drop)]
pub enum PartTree {
    /// A command.
    Do(CommandTree),
    /// A choice by a guard, with or without an `else`.
    If {
        guard: CondTree,
        then_body: BodyTree,
        else_body: Option<BodyTree>,
    },
}

/// A body: its parts act one after another.
#[cycle(body)]
#[derive(Drop)]
pub struct BodyTree {
    pub parts: Items<PartTree>,
}
