//! The file FOP: statements, whose commands act where a condition holds.
//!
//! The layer above makes its reader of the whole source of [`statements`], which reads this file whatever follows.
//! [`read_file`] reads it alone: it answers the tree of the file that the tokens spell, or the first fault of
//! the text, lexical, of syntax or of depth, at its exact place.
//!
//! It stands on `ssi_terms` for commands and conditions.
#![tactic(auto)]

mod file;
#[cfg(test)]
mod tests;

pub use file::{FileTree, Statement, StatementEntry, one_file_tree, read_file, statements};
