//! The value of a condition, which may ask whether points are free.

ghost use Rattle.std.specs.Prelude.{◌≡◌, ◌<◌, ◌≤◌, length};
ghost use Rattle.arrayvec.specs.ArrayVec.{array_vec_len};
ghost use Rattle.ssi_identities.specs.declared.rule.Cond.{Cond};
ghost use Rattle.ssi_identities.specs.Allowed.{CondScope};
ghost use Rattle.ssi_identities.specs.DataSets.{counts_of};
ghost use Rattle.ssi_identities.specs.States.{IsStateOf};
ghost use Rattle.ssi_identities.specs.Values as spec;
ghost use Rattle.ssi_identities.specs.Values.{move_condition_of, value_of};
ghost use Rattle.ssi_identities.specs.Wells.{IsWell};
ghost use Rattle.ssi_eval.specs.CondCodes.{IsCondCode, IsSomeCondCode};

use crate::condition::{Turn, walk};
use crate::frame::{Frame, Stack};
use ssi_image::Image;
use ssi_state::State;

/// Whether points may be moved to a lie by their own condition, which asks about no points in turn.
fn may_move<'a>(
    image: &'a Image,
    stack: &mut Stack<'a>,
    state: &State,
    report: u8,
    points: u16,
    reverse: bool,
) -> bool
    requires room { array_vec_len stack.old ≤ 16 }
    requires state { IsStateOf (counts_of image.now) state.now }
    ensures value { result
        ≡ spec.may_move state.now report (move_condition_of image.now points reverse) }
    ensures stack { stack.new.items ≡ stack.old.items }
{
    let Some(code) = image.move_code(points, reverse) else {
        return false;
    };
    let base = stack.len();
    match walk(stack, base, Frame::of(code), true, state, report) {
        Turn::Value(value) => value,
        Turn::Asks { .. } => unreachable!(),
    }
}

/// Whether points are controlled to a lie or free to move to it.
fn is_free<'a>(
    image: &'a Image,
    stack: &mut Stack<'a>,
    state: &State,
    report: u8,
    points: u16,
    reverse: bool,
) -> bool
    requires room { array_vec_len stack.old ≤ 16 }
    requires state { IsStateOf (counts_of image.now) state.now }
    requires well { IsWell image.now }
    requires known { points < length image.now.points }
    ensures value { result ≡ spec.is_free image.now state.now report points reverse }
    ensures stack { stack.new.items ≡ stack.old.items }
{
    let controlled_reverse = state.get(3 * points);
    controlled_reverse == reverse || may_move(image, stack, state, report, points, reverse)
}

/// The value of a condition of the image, by its code.
pub fn value<'a>(
    image: &'a Image,
    stack: &mut Stack<'a>,
    code: &'a [u8],
    state: &State,
    report: u8,
) -> bool
    requires room { array_vec_len stack.old ≤ 8 }
    requires well { IsWell image.now }
    requires state { IsStateOf (counts_of image.now) state.now }
    requires code { IsSomeCondCode image.now code.now }
    ensures value { (scope : CondScope) (cond : Cond) → IsCondCode image.now scope cond code.now
        → result ≡ value_of image.now cond state.now report }
    ensures stack { stack.new.items ≡ stack.old.items }
{
    let base = stack.len();
    let mut level = Frame::of(code);
    let mut value = true;
    'ask: loop {
        match walk(stack, base, level, value, state, report) {
            Turn::Value(value) => return value,
            Turn::Asks {
                level: asking,
                points,
                reverse,
            } => {
                value = is_free(image, stack, state, report, points, reverse);
                level = asking;
            }
        }
    }
}
