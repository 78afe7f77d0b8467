//! The codes of name faults.

/// A name isn't declared, or no module has the address.
pub const UNKNOWN: u8 = 1;
/// An earlier entry declares the name, or has the address.
pub const TWICE: u8 = 2;
/// A word isn't one of the identity's kind.
pub const WRONG_WORD: u8 = 3;
/// A command or a number isn't allowed in this file.
pub const NOT_IN_THIS_FILE: u8 = 4;
/// A test asks whether points are free to go, and no entry of PFM says when.
pub const NO_PFM: u8 = 5;
/// An earlier entry has the block.
pub const BLOCK_TWICE: u8 = 6;
/// An address, a pin or a bit is out of its range, or a pin or a bit is used earlier in the entry.
pub const BAD_PIN: u8 = 7;
/// No module names it.
pub const NOT_WIRED: u8 = 8;
/// A module names it earlier.
pub const WIRED_TWICE: u8 = 9;
/// A test in PFM asks whether points are free to go.
pub const FREE_TEST_IN_PFM: u8 = 10;
/// As many stand before it as the limit allows.
pub const TOO_MANY: u8 = 11;
/// The points are named earlier in the sub-route.
pub const POINTS_TWICE_IN_SUBROUTE: u8 = 12;
