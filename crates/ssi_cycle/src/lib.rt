//! The core of the interlocking: its state, the requests that wait, and the minor cycle.
//!
//! The layer above may rely on [`Interlocking`]: each of its calls is one event of the defined cycle, so after any calls it is what the definition makes of
//! their list. A minor cycle takes in what arrived in its slot, lets the slot's statements act, and then takes at most one request;
//! [`Interlocking::output`] is the command that goes out before. No call but [`Interlocking::begin`] takes memory. It stands on `ssi_eval` for conditions and bodies,
//! `ssi_image` for the data set, `ssi_state` for states, and `ssi_telegrams` for the four bytes of commands and reports.
#![tactic(auto)]

mod cycle;
mod exchange;
mod interlocking;
mod laws;
mod output;
mod requests;
mod restriction;
mod statements;
mod worked;

pub use interlocking::{Did, Interlocking};
pub use laws::{laws_of_deeds, laws_of_moments, laws_of_slots};
pub use requests::Full;
pub use worked::{
    worked_bytes, worked_cycle, worked_deeds, worked_moments, worked_restrictions, worked_slots,
};

/// The report byte that conditions and bodies see where there is no report: none has influence on them.
const NO_REPORT: u8 = 0;
