//! How many entries each file of identities has at most.

use ssi_identities::limits::{
    MOST_FLAGS, MOST_POINTS, MOST_ROUTES, MOST_SIGNALS, MOST_SUBS, MOST_TRACKS,
};

/// How many entries a file may have, and whether modules have to name what they declare.
#[derive(Clone, Copy)]
pub struct Quota {
    /// How many entries there are at most.
    pub most: usize,
    /// Whether modules have to name them.
    pub wired: bool,
}

/// Of PTS.
pub const POINTS: Quota = Quota {
    most: MOST_POINTS,
    wired: true,
};
/// Of SIG.
pub const SIGNALS: Quota = Quota {
    most: MOST_SIGNALS,
    wired: true,
};
/// Of TCS.
pub const TRACKS: Quota = Quota {
    most: MOST_TRACKS,
    wired: true,
};
/// Of RTE.
pub const ROUTES: Quota = Quota {
    most: MOST_ROUTES,
    wired: false,
};
/// Of SUB.
pub const SUBS: Quota = Quota {
    most: MOST_SUBS,
    wired: false,
};
/// Of FLG.
pub const FLAGS: Quota = Quota {
    most: MOST_FLAGS,
    wired: false,
};
