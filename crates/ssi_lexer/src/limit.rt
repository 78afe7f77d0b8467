//! The limit of a text.

/// How many bytes a text has at most, as `specs/Limits.antt` has it.
pub const TEXT_LIMIT: usize = 2_097_152;
