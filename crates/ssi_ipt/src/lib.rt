//! The file IPT: what a report of each trackside module does.
//!
//! The layer above makes its reader of the whole source of [`inputs`], which reads this file whatever follows.
//! [`read_file`] reads it alone: it answers the tree of the file that the tokens spell, or the first fault of
//! the text, lexical, of syntax or of depth, at its exact place.
//!
//! It stands on `ssi_terms` for numbers and bodies.
#![tactic(auto)]

mod file;
#[cfg(test)]
mod tests;

pub use file::{FileTree, InputEntry, inputs, one_file_tree, read_file};
