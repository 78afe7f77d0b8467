//! The compiler: a well data set becomes an image, its conditions and bodies code bytes.
//!
//! The layer above may rely on [`compile`]: the image is that of the data set. It stands on `ssi_image` for what an
//! image is made of and for the first bytes of items, and on `ssi_identities` for the data set and what its code is.
#![tactic(auto)]

mod body;
mod compiler;
mod condition;
mod length;
mod pieces;
mod rules;

pub use compiler::compile;

#[cfg(test)]
mod tests;
