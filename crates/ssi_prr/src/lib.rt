//! The file PRR: panel requests, each with what it does when it is taken.
//!
//! The layer above makes its reader of the whole source of [`requests`], which reads this file whatever follows.
//! [`read_file`] reads it alone: it answers the tree of the file that the tokens spell, or the first fault of
//! the text, lexical, of syntax or of depth, at its exact place.
//!
//! It stands on `ssi_terms` for names and bodies.
#![tactic(auto)]

mod file;
#[cfg(test)]
mod tests;

pub use file::{FileTree, RequestEntry, one_file_tree, read_file, requests};
