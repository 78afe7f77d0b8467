//! Conditions and bodies valued from their code.
//!
//! The layer above may rely on [`eval_cond`], which is the value of the condition at a place of an image, and on [`run_body`], which does to a state what the
//! body at a place does. Both read the code where it stands: they copy nothing, take no memory and call nothing within themselves. The levels that are not
//! being read wait on a [`Stack`] of 32 frames; that 27 are enough is proved. Making one costs more than reading a short body, so [`run_body_with`] takes it
//! from a caller who runs several. It stands on `ssi_image` for places and code, `ssi_state` for states, and `ssi_identities` for what conditions and bodies
//! mean.
#![tactic(auto)]

mod body;
mod condition;
mod frame;
mod free;
mod places;
mod read;

pub use frame::Stack;
pub use places::{eval_cond, run_body, run_body_with};

#[cfg(test)]
mod tests;
