//! The state of an interlocking in memory: a truth value for each fact.
//!
//! The layer above may rely on [`State`], which contracts see as the list of its truth values: it is made once, at the
//! [`State::start`], read and written fact by fact, copied over another, and compared with another from change to
//! change. Only the start takes memory. It stands on `ssi_identities` for facts and states.
#![tactic(auto)]

mod state;

pub use state::State;

#[cfg(test)]
mod tests;
