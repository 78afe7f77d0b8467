//! Trackside modules: the boxes beside the line that take commands and give reports.
//!
//! A module is points with two machines, a signal with eight lamps or a track with eight inputs.
//! Each is seen as one record of its state, whatever box it is, and the trait `Trackside` says
//! what every call does to that record: the rules for all three kinds stand in one place, and
//! other kinds of box may stand beside the three here, as long as they obey the trait. A layer
//! above may rely on the exact record before and after each call, of one module and of one member
//! of a whole shelf. The crate stands on nothing else here.
#![tactic(auto)]

ghost use Rattle.std.specs.Prelude.{◌≡◌, ◌↔◌, IsTrue};

mod events;
pub mod kinds;
mod machine;
mod pins;
mod points;
mod shelf;
mod signal;
#[cfg(test)]
mod tests;
mod track;

pub use events::Event;
pub use points::PointsModule;
pub use shelf::{command_at, event_at, is_shelf, report_at, shelf_place};
pub use signal::SignalModule;
pub use track::TrackModule;

/// A module at the trackside, whatever box it is.
///
/// No call fails and none takes memory.
pub trait Trackside: Drop {
    ghost use Rattle.ssi_trackside.specs.Module.{ModuleState, after_command, after_event, fresh, report_of};

    /// The module as a record of its state.
    ghost state: { Self → ModuleState };

    /// The number of its kind, as in `kinds`.
    fn kind(&self) -> u8
        ensures { result ≡ (state self.now).kind };

    /// Takes a command byte. Bits 0 and 1 drive machine a of points to normal and to reverse, bits
    /// 2 and 3 machine b. A dead module, a jammed machine, a signal and a track stay as they are.
    fn command(&mut self, value: u8)
        ensures { state self.new ≡ after_command (state self.old) value };

    /// The byte that it reports: `None` exactly where it is dead.
    fn report(&self) -> Option<u8>
        ensures { result ≡ report_of (state self.now) };

    /// Takes in what happens to it, dead or alive. An event of another kind of module, or at a pin
    /// that the kind hasn't, changes nothing.
    fn event(&mut self, event: Event)
        ensures { state self.new ≡ after_event (state self.old) event };

    /// Whether it is as a new module of its kind.
    fn is_fresh(&self) -> bool
        ensures { IsTrue result ↔ (state self.now ≡ fresh (state self.now).kind) };
}
