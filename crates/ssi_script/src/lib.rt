//! The script: its steps, as they are written and as they act on a layout, and the lines of the trace.
//!
//! The layer above may rely on [`read_script`], which answers the steps of a script up to its end or to the first step that has a fault, with that fault at its
//! place; and on [`write_cycle`], [`cycle_line`] and [`write_full`], which give exactly the defined lines. `specs/Sessions` and `specs/Traces` define what the
//! steps make of an interlocking with its modules, and what is written. It stands on `ssi_lexer` for tokens, on `ssi_image` for names and wires, on `ssi_cycle`
//! for the core, and on `ssi_trackside` for the modules.
#![tactic(auto)]

mod changes;
mod laws;
mod line;
mod meaning;
mod reading;
mod script;
mod step;
mod words;

pub use changes::worked_changes;
pub use laws::others_stay;
pub use line::{cycle_line, write_cycle, write_full};
pub use script::{ScriptList, one_script, read_script};
pub use step::{EventWord, Mark, ModuleWord, ScriptFault, ScriptStep, StepTree};
