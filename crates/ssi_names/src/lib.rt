//! The whole source and its names: each is declared once, what is used is declared, each word is one of its
//! identity's kind, and what has to be wired is wired.
//!
//! The layer above may rely on [`read_source`], which answers the tree of the twelve files that the tokens
//! spell, or the first fault, lexical or of syntax; and on [`resolve`]: it answers the data set, or every
//! fault of the names, words and numbers in written order. Three passes do it, each linear: tables of all
//! names, the faults, the rows. It stands on `ssi_terms` for trees and on `ssi_identities` for the data set.
#![tactic(auto)]

mod addresses;
mod bodies;
mod code;
mod conditions;
mod declaration;
mod fault;
mod faults;
mod identities;
mod inputs;
mod judge;
mod limits;
mod members;
mod module_rows;
mod modules;
mod moves;
mod name_set;
mod named;
mod outputs;
mod placing;
mod requests;
mod resolving;
mod rows;
mod rule_file;
mod scope;
mod source;
mod statements;
mod tables;
mod text;
mod words;

pub use fault::{Fault, FaultList, ResolveFault};
pub use name_set::NameSet;
pub use resolving::{laws_of_resolving, resolve};
pub use source::{SourceTree, one_source_tree, read_source};
pub use text::characters;

#[cfg(test)]
mod row_tests;
#[cfg(test)]
mod tests;
