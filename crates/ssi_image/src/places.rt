//! Places of conditions and bodies in a data set.

/// A place where a condition may stand. Modules are numbered by their place in the data set.
#[derive(Clone, Copy, Debug, PartialEq, Eq)]
pub enum CondAt {
    /// When a bit that is sent to a module is 1.
    Output {
        /// The module's number.
        module: u8,
        /// The bit, 0 to 7, 0 being the lowest.
        bit: u8,
    },
    /// When points are free to move to a lie.
    Free {
        /// The points' number.
        points: u16,
        /// Whether the lie is reverse.
        reverse: bool,
    },
}

/// A place where a body may stand.
#[derive(Clone, Copy, Debug, PartialEq, Eq)]
pub enum BodyAt {
    /// What a request does, by its number.
    Request(u16),
    /// A statement, by its number: its commands act where its guard holds.
    Statement(u16),
    /// What a report of a module does, by the module's number.
    Input(u8),
}
