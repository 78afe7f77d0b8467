//! The limits of a layout and of its rules, as the code has them: each is that of `specs/Limits.antt`, since
//! what compares with it is proved to decide by that one.

/// Points of a layout.
pub const MOST_POINTS: usize = 126;
/// Signals of a layout.
pub const MOST_SIGNALS: usize = 504;
/// Tracks of a layout.
pub const MOST_TRACKS: usize = 504;
/// Routes of a layout.
pub const MOST_ROUTES: usize = 512;
/// Sub-routes of a layout.
pub const MOST_SUBS: usize = 1024;
/// Flags of a layout.
pub const MOST_FLAGS: usize = 512;
/// Requests of a layout.
pub const MOST_REQUESTS: usize = 1024;
/// Statements of a layout.
pub const MOST_STATEMENTS: usize = 4096;
/// Modules of a layout.
pub const MOST_MODULES: usize = 63;

/// How many addresses there are, 0 among them, which no module has.
pub const ADDRESSES: usize = 64;
/// The bits of a report, and of what is sent to a module.
pub const BITS: u8 = 8;

/// Characters of a name.
pub const MOST_CHARACTERS: usize = 16;
/// Tracks that points lie over.
pub const MOST_TRACKS_OF_POINTS: usize = 4;
/// Sub-routes of a route.
pub const MOST_SUBS_OF_ROUTE: usize = 32;
/// Points of a sub-route.
pub const MOST_POINTS_OF_SUB: usize = 8;
/// Groups in one another in a condition, and choices in one another in a body.
pub const MOST_LEVELS: u8 = 8;
