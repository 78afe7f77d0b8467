//! Where conditions and bodies stand, which says what they may name.

ghost use Rattle.ssi_identities.specs.Facts.{IsWithinLimits};

use crate::data_set::PointsRow;
use crate::fact::Counts;

/// Where a condition stands.
#[derive(Drop)]
pub struct CondPlace<'a> {
    /// How many facts there are.
    pub facts: u16,
    /// How many bits a report has here.
    pub bits: u8,
    /// The points that may be asked about, for a lie for which they have a condition.
    pub points: &'a [PointsRow],
}

/// Where a body stands.
#[derive(Drop)]
pub struct BodyPlace<'a> {
    /// Where its guards stand.
    pub guards: CondPlace<'a>,
    /// How many identities of each kind there are.
    pub counts: Counts,
    /// Whether it is the input of a module, and commands what the lineside reports.
    pub is_input: bool,
    ghost limits: { IsWithinLimits counts },
}
