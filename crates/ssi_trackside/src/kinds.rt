//! The numbers of the three kinds of module.

/// Points: two machines, at pins 0 and 1.
pub const POINTS: u8 = 0;

/// A signal: eight lamps, at pins 0 to 7.
pub const SIGNAL: u8 = 1;

/// A track: eight inputs, at pins 0 to 7.
pub const TRACK: u8 = 2;
