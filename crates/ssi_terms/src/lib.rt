//! Trees of the source, read from its tokens.
//!
//! The layers above make their readers of [`cond`], [`body`], [`Command`], [`identity_files`],
//! [`file`](fn@file) with an entry of their own, and [`file_ended`]: their clauses say what they compute, and
//! laws of specs/ and proofs/ that it is the grammar. [`read_cond`], [`read_body`], [`read_command`] and
//! [`read_identities`] read a part alone: each answers the tree of its part that the tokens spell, or the first
//! fault of the text, lexical, of syntax or of depth, at its exact place (`Tells`).
//!
//! It stands on `ssi_lexer` for tokens and for what readers have in common.
#![tactic(auto)]

mod bodies;
mod conditions;
mod ending;
mod files;
mod identities;
mod identity_entries;
#[cfg(test)]
mod identity_tests;
mod identity_tree;
mod modules;
mod names;
mod read_fault;
mod spots;
#[cfg(test)]
mod tests;
mod tree;

pub use bodies::{Command, body, one_body_tree, read_body, read_command};
pub use conditions::{cond, one_cond_tree, read_cond};
pub use ending::file_ended;
pub use files::file;
pub use identities::{identity_files, one_identity_tree, read_identities};
pub use identity_tree::{IdentityTree, ModuleEntry, PointsEntry, RouteEntry, SubEntry};
pub use read_fault::ReadFault;
pub use spots::{dot, identity, number, one_of_words, token};
pub use tree::{BodyTree, CommandTree, CondTree, ItemTree, PartTree, Spot};
