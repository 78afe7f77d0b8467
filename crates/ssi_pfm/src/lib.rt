//! The file PFM: when points are free to move to a lie.
//!
//! The layer above makes its reader of the whole source of [`rules`], which reads this file whatever follows.
//! [`read_file`] reads it alone: it answers the tree of the file that the tokens spell, or the first fault of
//! the text, lexical, of syntax or of depth, at its exact place.
//!
//! It stands on `ssi_terms` for names and conditions.
#![tactic(auto)]

mod file;
#[cfg(test)]
mod tests;

pub use file::{FileTree, RuleEntry, one_file_tree, read_file, rules};
