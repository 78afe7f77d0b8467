//! What happens to a module at the trackside.

/// An event at a module, with the pin that it concerns.
#[derive(Clone, Copy, PartialEq, Eq, Debug)]
pub enum Event {
    /// A train occupies the track at this input.
    Occupy(u8),
    /// The track at this input becomes clear.
    Clear(u8),
    /// The lamp at this pin fails.
    Fail(u8),
    /// The lamp at this pin is mended.
    Mend(u8),
    /// The machine at this pin jams.
    Jam(u8),
    /// The machine at this pin is freed.
    Unjam(u8),
    /// The module dies: it takes no commands and gives no reports.
    Dead,
    /// The module lives again, as events left it.
    Live,
}
