//! What a body does to a state.

ghost use Rattle.std.specs.Prelude.{◌≡◌, ◌≤◌, [], Option};
ghost use Rattle.arrayvec.specs.ArrayVec.{array_vec_len};
ghost use Rattle.ssi_identities.specs.declared.rule.Body.{Body};
ghost use Rattle.ssi_identities.specs.declared.rule.Cond.{Cond};
ghost use Rattle.ssi_identities.specs.Allowed.{BodyScope};
ghost use Rattle.ssi_identities.specs.Codes.{code_of_body};
ghost use Rattle.ssi_identities.specs.DataSets.{counts_of};
ghost use Rattle.ssi_identities.specs.States.{IsStateOf};
ghost use Rattle.ssi_identities.specs.Steps.{effect_of};
ghost use Rattle.ssi_identities.specs.Values.{value_of};
ghost use Rattle.ssi_identities.specs.Wells.{IsWell};
ghost use Rattle.ssi_eval.specs.BodyCodes.{IsBodyCode, IsChoiceCode, IsSomeBodyCode, IsSomeChoiceCode, taken};

use crate::frame::{Frame, Stack, set_aside};
use crate::free::value;
use crate::read::{body_op, number, piece};
use ssi_identities::BodyOp;
use ssi_image::Image;
use ssi_state::State;

/// The code of the branch that a choice's guard takes: nothing, where the guard doesn't hold and there is no
/// other branch.
fn branch<'a>(
    image: &'a Image,
    stack: &mut Stack<'a>,
    choice: &'a [u8],
    state: &State,
    report: u8,
) -> &'a [u8]
    requires room { array_vec_len stack.old ≤ 8 }
    requires well { IsWell image.now }
    requires state { IsStateOf (counts_of image.now) state.now }
    requires choice { IsSomeChoiceCode image.now choice.now }
    ensures code { (scope : BodyScope) (guard : Cond) (then_body : Body) (else_body : Option Body)
        → IsChoiceCode image.now scope guard then_body else_body choice.now
        → result.now ≡ code_of_body (taken (value_of image.now guard state.now report) then_body else_body) }
    ensures stack { stack.new.items ≡ stack.old.items }
{
    let (guard, branches) = piece(choice);
    let (then_code, rest) = piece(branches);
    if value(image, stack, guard, state, report) {
        return then_code;
    }
    if rest.is_empty() {
        return rest;
    }
    let (else_code, _) = piece(rest);
    else_code
}

/// Does what a body of the image does, by its code.
pub fn run<'a>(
    image: &'a Image,
    stack: &mut Stack<'a>,
    code: &'a [u8],
    state: &mut State,
    report: u8,
)
    requires empty { stack.old.items ≡ [] }
    requires well { IsWell image.now }
    requires state { IsStateOf (counts_of image.now) state.old }
    requires code { IsSomeBodyCode image.now code.now }
    ensures effect { (scope : BodyScope) (body : Body) → IsBodyCode image.now scope body code.now
        → state.new ≡ effect_of image.now body state.old report }
    ensures empty { stack.new.items ≡ [] }
{
    let mut items = code;
    'run: loop {
        if items.is_empty() {
            let Some(outer) = stack.pop() else {
                return;
            };
            items = outer.items;
            continue;
        }
        let (op, operand) = body_op(items);
        match op {
            BodyOp::Set(value) => {
                let (fact, rest) = number(operand);
                state.set(fact, value);
                items = rest;
            }
            BodyOp::If => {
                let (choice, rest) = piece(operand);
                set_aside(stack, Frame::of(rest));
                items = branch(image, stack, choice, state, report);
            }
        }
    }
}
