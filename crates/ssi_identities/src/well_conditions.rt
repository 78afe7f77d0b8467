//! Whether a condition is well: what it names, how deep its groups lie, and how long its code is.

ghost use Rattle.std.specs.Prelude.{◌≡◌, ◌↔◌, IfSome, IsTrue, nat_le, length, is_some};
ghost use Rattle.ssi_identities.specs.Allowed.{IsWellCond, cond_depth, is_item_within, is_within, item_depth};
ghost use Rattle.ssi_identities.specs.Codes.{code_of_cond, code_of_item};
ghost use Rattle.ssi_identities.specs.Deciding.{capped, cond_scope_of};
ghost use Rattle.ssi_identities.specs.Values.{move_condition_in};

use crate::data_set::PointsRow;
use crate::limits::MOST_LEVELS;
use crate::place::CondPlace;
use crate::rule::{Cond, CondItem};

/// How many bytes are too many for a code, since four bytes tell its length.
pub const CODE_LIMIT: u64 = 1 << 32;

/// Whether a condition is well where it stands.
pub fn is_well_cond(place: &CondPlace, cond: &Cond) -> bool
    ensures { IsTrue result ↔ IsWellCond (cond_scope_of place.now) cond.now }
{
    is_cond_shallow(cond, MOST_LEVELS)
        && is_cond_within(place, cond)
        && cond_size(cond) < CODE_LIMIT
}

/// Whether there is no condition, or one that is well where it stands.
pub fn is_well_where_given(place: &CondPlace, cond: &Option<Cond>) -> bool
    ensures { IsTrue result ↔ IfSome cond.now (IsWellCond (cond_scope_of place.now)) }
{
    match cond {
        Some(cond) => is_well_cond(place, cond),
        None => true,
    }
}

/// Whether points have a condition for a lie.
fn may_ask(points: &[PointsRow], number: u16, reverse: bool) -> bool
    ensures { result ≡ is_some (move_condition_in points.now number reverse) }
{
    match points.get(usize::from(number)) {
        Some(row) if reverse => row.free_reverse.is_some(),
        Some(row) => row.free_normal.is_some(),
        None => false,
    }
}

/// Whether a condition names only what its place allows, and no list in it is too short.
#[cycle(within)]
pub fn is_cond_within(place: &CondPlace, cond: &Cond) -> bool
    ensures { result ≡ is_within (cond_scope_of place.now) cond.now }
{
    for item in cond.items.as_slice() {
        if !is_item_within(place, item) {
            return false;
        }
    }
    !cond.items.is_empty()
}

#[cycle(within)]
fn is_item_within(place: &CondPlace, item: &CondItem) -> bool
    ensures { result ≡ is_item_within (cond_scope_of place.now) item.now }
{
    match item {
        CondItem::Lit { fact, .. } => *fact < place.facts,
        CondItem::Bit { bit, .. } => *bit < place.bits,
        CondItem::Free { points, reverse } => may_ask(place.points, *points, *reverse),
        CondItem::Any(alternatives) => {
            for cond in alternatives.as_slice() {
                if !is_cond_within(place, cond) {
                    return false;
                }
            }
            alternatives.len() >= 2
        }
    }
}

/// Whether so many groups at most lie in one another in a condition.
#[cycle(levels)]
pub fn is_cond_shallow(cond: &Cond, levels: u8) -> bool
    ensures { result ≡ nat_le (cond_depth cond.now) levels }
{
    for item in cond.items.as_slice() {
        if !is_item_shallow(item, levels) {
            return false;
        }
    }
    true
}

#[cycle(levels)]
fn is_item_shallow(item: &CondItem, levels: u8) -> bool
    ensures { result ≡ nat_le (item_depth item.now) levels }
{
    match item {
        CondItem::Lit { .. } | CondItem::Bit { .. } | CondItem::Free { .. } => true,
        CondItem::Any(alternatives) => {
            if levels == 0 {
                return false;
            }
            for cond in alternatives.as_slice() {
                if !is_cond_shallow(cond, levels - 1) {
                    return false;
                }
            }
            true
        }
    }
}

/// How many bytes the code of a condition has; the largest number where they are more.
#[cycle(size)]
pub fn cond_size(cond: &Cond) -> u64
    ensures { result ≡ capped (length (code_of_cond cond.now)) }
{
    let mut size = 0_u64;
    for item in cond.items.as_slice() {
        size = size.saturating_add(item_size(item));
    }
    size
}

#[cycle(size)]
fn item_size(item: &CondItem) -> u64
    ensures { result ≡ capped (length (code_of_item item.now)) }
{
    match item {
        CondItem::Lit { .. } | CondItem::Free { .. } => 3,
        CondItem::Bit { .. } => 2,
        CondItem::Any(alternatives) => {
            let mut size = 5_u64;
            for cond in alternatives.as_slice() {
                size = size.saturating_add(4).saturating_add(cond_size(cond));
            }
            size
        }
    }
}
