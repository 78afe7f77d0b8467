//! The parts of a minor cycle, one after another.

ghost use Rattle.std.specs.Prelude.{◌≡◌, ◌<◌, ◌↔◌, All, IsTrue, false, drop, length};
ghost use Rattle.ssi_identities.specs.DataSets.{counts_of};
ghost use Rattle.ssi_identities.specs.States.{IsStateOf, fact_total_of};
ghost use Rattle.ssi_identities.specs.Wells.{IsWell};
ghost use Rattle.ssi_cycle.specs.Deeds.{after_deeds};
ghost use Rattle.ssi_cycle.specs.Worlds.{World, deeds_of, taken_in};

use crate::exchange::take_arrival;
use crate::requests::{MOST_WAITING, serve};
use crate::statements::run_statements;
use arrayvec::ArrayVec;
use ssi_image::Image;
use ssi_state::State;

/// Takes over a state where the last minor cycle may have changed it.
pub fn note(noted: &mut State, state: &State, has_acted: bool)
    requires facts { fact_total_of noted.old ≡ fact_total_of state.now }
    requires idle { has_acted ≡ false → noted.old ≡ state.now }
    ensures { noted.new ≡ state.now }
{
    if has_acted {
        noted.copy_from(state);
    }
}

/// Takes in what has arrived in a slot, lets the slot's statements act, and serves the oldest request that waits. Answers whether anything has acted, and
/// the request that was taken, with its panel.
pub fn act(
    image: &Image,
    slot: u8,
    arrived: Option<[u8; 4]>,
    waiting: &mut ArrayVec<u16, MOST_WAITING>,
    state: &mut State,
) -> (bool, Option<(u8, u16)>)
    requires well { IsWell image.now }
    requires slot { slot < 64 }
    requires there { All (λ request. request < length image.now.requests) waiting.old.items }
    requires state { IsStateOf (counts_of image.now) state.old }
    ensures effect { let world : World = record { state = state.old; waiting = waiting.old.items; slot = slot } in
        state.new ≡ after_deeds image.now state.old (deeds_of image.now world arrived) }
    ensures whole { IsStateOf (counts_of image.now) state.new }
    ensures rest { waiting.new.items ≡ drop 1 waiting.old.items }
    ensures taken { result.1 ≡ taken_in image.now (record { state = state.old; waiting = waiting.old.items; slot = slot }) }
    ensures acted { let world : World = record { state = state.old; waiting = waiting.old.items; slot = slot } in
        IsTrue result.0 ↔ (0 < length (deeds_of image.now world arrived)) }
    ensures idle { result.0 ≡ false → state.new ≡ state.old }
{
    let reported = take_arrival(image, slot, arrived, state);
    let stated = run_statements(image, slot, state);
    let request = serve(image, waiting, state);
    let has_acted = reported || stated || request.is_some();
    (has_acted, request)
}
