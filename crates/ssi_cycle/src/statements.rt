//! The statements of a slot.

ghost use Rattle.std.specs.Prelude.{◌≡◌, ◌<◌, ◌≤◌, ◌↔◌, length, IsTrue};
ghost use Rattle.ssi_identities.specs.DataSets.{counts_of};
ghost use Rattle.ssi_identities.specs.Limits.{most_statements};
ghost use Rattle.ssi_identities.specs.States.{IsStateOf};
ghost use Rattle.ssi_identities.specs.Wells.{IsWell};
ghost use Rattle.ssi_cycle.specs.Deeds.{after_deeds};
ghost use Rattle.ssi_cycle.specs.Statements.{deeds_of_statements, share_of as share_of_count};

use crate::NO_REPORT;
use ssi_eval::{Stack, run_body_with};
use ssi_image::{BodyAt, Image};
use ssi_state::State;

/// How many of so many statements each slot has: the least number of which 64 slots have enough.
fn share_of(count: u16) -> u16
    requires { count ≤ most_statements }
    ensures { result ≡ share_of_count count }
{
    (count + 63) / 64
}

/// Whether a slot has any statement.
fn has_statements(image: &Image, slot: u8) -> bool
    requires well { IsWell image.now }
    requires slot { slot < 64 }
    ensures { IsTrue result ↔ (0 < length (deeds_of_statements image.now slot)) }
{
    let count = image.statement_count();
    u16::from(slot) * share_of(count) < count
}

/// Lets the statements of a slot act, in written order. It is kept apart, so that a slot without statements makes no stack.
#[inline(never)]
fn act_in_turn(image: &Image, slot: u8, state: &mut State)
    requires well { IsWell image.now }
    requires slot { slot < 64 }
    requires state { IsStateOf (counts_of image.now) state.old }
    ensures { state.new ≡ after_deeds image.now state.old (deeds_of_statements image.now slot) }
{
    let count = image.statement_count();
    let share = share_of(count);
    let first = u16::from(slot) * share;
    let end = count.min(first + share);
    let mut stack = Stack::new();
    for number in first..end {
        let place = BodyAt::Statement(number);
        run_body_with(image, &mut stack, place, state, NO_REPORT);
    }
}

/// Lets the statements of a slot act, in written order. Answers whether it has any.
pub fn run_statements(image: &Image, slot: u8, state: &mut State) -> bool
    requires well { IsWell image.now }
    requires slot { slot < 64 }
    requires state { IsStateOf (counts_of image.now) state.old }
    ensures effect { state.new ≡ after_deeds image.now state.old (deeds_of_statements image.now slot) }
    ensures answer { IsTrue result ↔ (0 < length (deeds_of_statements image.now slot)) }
{
    let has = has_statements(image, slot);
    if has {
        act_in_turn(image, slot, state);
    }
    has
}
