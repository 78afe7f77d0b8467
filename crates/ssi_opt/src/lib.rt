//! The file OPT: what is sent to each trackside module.
//!
//! The layer above makes its reader of the whole source of [`outputs`], which reads this file whatever follows.
//! [`read_file`] reads it alone: it answers the tree of the file that the tokens spell, or the first fault of
//! the text, lexical, of syntax or of depth, at its exact place.
//!
//! It stands on `ssi_terms` for numbers and conditions.
#![tactic(auto)]

mod file;
#[cfg(test)]
mod tests;

pub use file::{FileTree, Output, OutputEntry, one_file_tree, outputs, read_file};
