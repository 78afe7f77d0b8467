//! A walk through the code of a condition.

ghost use Rattle.std.specs.Prelude.{◌≡◌, ◌==◌, ℕ, ◌+◌, ◌<◌, ◌≤◌, Bool, true, if◌then◌else◌, List, ◌∷◌, ◌++◌, length};
ghost use Rattle.ssi_identities.specs.Allowed.{CondScope};
ghost use Rattle.ssi_identities.specs.Codes.{IsShort, with_length};
ghost use Rattle.ssi_identities.specs.Values.{Scene, bit_of};
ghost use Rattle.ssi_eval.specs.Frames.{CanGoOn, Fits, Gives, GoesOn, LooksAt, Reading, bytes_in, bytes_left};
ghost use Rattle.ssi_eval.specs.Items.{CanRead, IsRead, bytes_of};
ghost use Rattle.ssi_eval.specs.Pieces.{BeginsPiece};
ghost use Rattle.ssi_eval.specs.Turns.{ComesTo, Shrinks};

use crate::frame::{Frame, Stack, set_aside};
use crate::read::{cond_op, first, number, piece};
use ssi_identities::CondOp;
use ssi_state::State;

/// An item of a condition, as it is read.
enum Item<'a> {
    /// A test of a fact or a bit has this value.
    Test(bool),
    /// Points are asked about: are they controlled or free to a lie?
    Free {
        /// The points' number.
        points: u16,
        /// Whether the lie is reverse.
        reverse: bool,
    },
    /// A group has these alternatives.
    Group(&'a [u8]),
}

/// Where a walk through a condition came to.
pub enum Turn<'a> {
    /// The condition has this value.
    Value(bool),
    /// The walk asks whether points are controlled or free to a lie.
    Asks {
        /// The level at which it goes on with the answer.
        level: Frame<'a>,
        /// The points' number.
        points: u16,
        /// Whether the lie is reverse.
        reverse: bool,
    },
}

/// Whether a bit of a report is 1.
fn is_set(report: u8, bit: u8) -> bool
    requires { bit < 8 }
    ensures { result ≡ bit_of report bit }
{
    (report >> bit) % 2 == 1
}

impl<'a> Frame<'a> {
    /// Whether the value of the item that was read last is the level's.
    fn is_settled(self, value: bool) -> bool
        ensures { result
            ≡ (if value then length self.entry.items.now == 0 else length self.entry.others.now == 0) }
    {
        if value {
            self.items.is_empty()
        } else {
            self.others.is_empty()
        }
    }

    /// The level at its next alternative.
    fn next_alternative(self) -> Frame<'a>
        requires { BeginsPiece self.others.now }
        ensures { (piece rest : List ℕ) → IsShort piece → self.entry.others.now ≡ with_length piece ++ rest
            → (result.items.now ≡ piece) × (result.others.now ≡ rest) }
    {
        let (items, others) = piece(self.others);
        Frame { items, others }
    }

    /// Reads the next item.
    fn next_item(&mut self, state: &State, report: u8) -> Item<'a>
        requires { CanRead state.now report self.old }
        ensures read { (scene : Scene) (scope : CondScope) (frames : List Frame) (value : Bool)
            → LooksAt scene scope state.now report → Gives scene scope (self.old ∷ frames) true value
            → IsRead scene scope self.new frames value result }
        ensures left { bytes_of result + bytes_left self.new < bytes_left self.old }
    {
        let (op, operand) = cond_op(self.items);
        match op {
            CondOp::Fact(wanted) => {
                let (fact, items) = number(operand);
                self.items = items;
                Item::Test(state.get(fact) == wanted)
            }
            CondOp::Bit(wanted) => {
                let (bit, items) = first(operand);
                self.items = items;
                Item::Test(is_set(report, bit) == wanted)
            }
            CondOp::Free(reverse) => {
                let (points, items) = number(operand);
                self.items = items;
                Item::Free { points, reverse }
            }
            CondOp::Group => {
                let (alternatives, items) = piece(operand);
                self.items = items;
                Item::Group(alternatives)
            }
        }
    }
}

/// Walks on at a level, where the item that was read last has a value, until the levels above the stack's
/// base are read or points are asked about.
pub fn walk<'a>(
    stack: &mut Stack<'a>,
    base: usize,
    mut level: Frame<'a>,
    mut value: bool,
    state: &State,
    report: u8,
) -> Turn<'a>
    requires room { base ≤ 16 }
    requires on { CanGoOn base state.now report stack.old.items level value }
    ensures turn { (reading : Reading) → Fits reading base state.now report
        → GoesOn reading stack.old.items level.entry value → ComesTo reading stack.new.items result }
    ensures left { Shrinks (bytes_in level.entry stack.old.items) stack.new.items result }
{
    'walk: loop {
        if level.is_settled(value) {
            if stack.len() == base {
                return Turn::Value(value);
            }
            level = stack.pop().unwrap();
        } else if !value {
            level = level.next_alternative();
            value = true;
        } else {
            match level.next_item(state, report) {
                Item::Test(holds) => value = holds,
                Item::Free { points, reverse } => {
                    return Turn::Asks {
                        level,
                        points,
                        reverse,
                    };
                }
                Item::Group(alternatives) => {
                    set_aside(stack, level);
                    level = Frame {
                        items: &[],
                        others: alternatives,
                    };
                    value = false;
                }
            }
        }
    }
}
