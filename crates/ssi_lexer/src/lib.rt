//! Tokens of a text: names, words, numbers and marks, with their places.
//!
//! The layer above may rely on [`Tokens`], which gives the tokens of a text in order, with number and
//! place, up to the end of the text or its first lexical fault: those of the one cutting of the text
//! (`AreTokens`), and no others. Its readers are instances of [`Part`] and [`Entry`], whose laws hold of
//! lists and repetitions of them too. It stands on `ssi_base` for places.
#![tactic(auto)]

mod limit;
mod parts;
mod scan;
mod taking;
mod token;
mod tokens;
mod wanted;

pub use limit::TEXT_LIMIT;
pub use parts::{Entry, Part, entries, separated};
pub use token::{BAD_CHARACTER, BAD_NUMBER, LONG_NAME, LexFault, TextEnd, Token, TokenKind};
pub use tokens::{Tokens, one_cutting, tokens_stand};
pub use wanted::{Stop, Wanted};

#[cfg(test)]
mod tests;
