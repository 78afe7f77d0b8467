//! The conditions and bodies of an image, by their places.

ghost use Rattle.std.specs.Prelude.{◌≡◌, true, [], is_some, Some};
ghost use Rattle.ssi_identities.specs.declared.rule.Body.{Body};
ghost use Rattle.ssi_identities.specs.declared.rule.Cond.{Cond};
ghost use Rattle.ssi_identities.specs.Codes.{code_of_cond};
ghost use Rattle.ssi_identities.specs.DataSets.{counts_of};
ghost use Rattle.ssi_identities.specs.States.{IsStateOf};
ghost use Rattle.ssi_identities.specs.Steps.{effect_of};
ghost use Rattle.ssi_identities.specs.Values.{value_of};
ghost use Rattle.ssi_identities.specs.Wells.{IsWell};
ghost use Rattle.ssi_image.specs.Places.{body_at, cond_at};

use crate::body::run;
use crate::frame::Stack;
use crate::free::value;
use ssi_image::{BodyAt, CondAt, Image};
use ssi_state::State;

/// The code of the condition at a place.
fn cond_code(image: &Image, place: CondAt) -> &[u8]
    requires { is_some (cond_at image.now place) ≡ true }
    ensures code { (cond : Cond) → cond_at image.now place ≡ Some cond → result.now ≡ code_of_cond cond }
    ensures well { IsWell image.now }
{
    match place {
        CondAt::Output { module, bit } => image.output_code(module, bit).unwrap(),
        CondAt::Free { points, reverse } => image.move_code(points, reverse).unwrap(),
    }
}

/// The value of the condition at a place, in a state and with a report's byte.
pub fn eval_cond(image: &Image, place: CondAt, state: &State, report: u8) -> bool
    requires there { is_some (cond_at image.now place) ≡ true }
    requires state { IsStateOf (counts_of image.now) state.now }
    ensures { (cond : Cond) → cond_at image.now place ≡ Some cond
        → result ≡ value_of image.now cond state.now report }
{
    let code = cond_code(image, place);
    let mut stack = Stack::new();
    value(image, &mut stack, code, state, report)
}

/// Does what the body at a place does, in a state and with a report's byte, and reads it on this stack.
pub fn run_body_with<'a>(
    image: &'a Image,
    stack: &mut Stack<'a>,
    place: BodyAt,
    state: &mut State,
    report: u8,
)
    requires empty { stack.old.items ≡ [] }
    requires there { is_some (body_at image.now place) ≡ true }
    requires state { IsStateOf (counts_of image.now) state.old }
    ensures effect { (body : Body) → body_at image.now place ≡ Some body
        → state.new ≡ effect_of image.now body state.old report }
    ensures empty { stack.new.items ≡ [] }
{
    match place {
        BodyAt::Request(request) => {
            let code = image.request_code(request).unwrap();
            run(image, stack, code, state, report);
        }
        BodyAt::Statement(statement) => {
            let (guard, commands) = image.statement_code(statement).unwrap();
            if value(image, stack, guard, state, report) {
                run(image, stack, commands, state, report);
            }
        }
        BodyAt::Input(module) => {
            let code = image.input_code(module).unwrap();
            run(image, stack, code, state, report);
        }
    }
}

/// Does what the body at a place does, in a state and with a report's byte.
pub fn run_body(image: &Image, place: BodyAt, state: &mut State, report: u8)
    requires there { is_some (body_at image.now place) ≡ true }
    requires state { IsStateOf (counts_of image.now) state.old }
    ensures { (body : Body) → body_at image.now place ≡ Some body
        → state.new ≡ effect_of image.now body state.old report }
{
    let mut stack = Stack::new();
    run_body_with(image, &mut stack, place, state, report);
}
