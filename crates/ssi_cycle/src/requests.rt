//! The requests that wait, and the one that is taken.

ghost use Rattle.std.specs.Prelude.{◌≡◌, ◌<◌, ◌↔◌, All, IsErr, IsSome, IsTrue, drop, length};
ghost use Rattle.ssi_identities.specs.DataSets.{counts_of};
ghost use Rattle.ssi_identities.specs.States.{IsStateOf};
ghost use Rattle.ssi_cycle.specs.Deeds.{after_deeds};
ghost use Rattle.ssi_cycle.specs.Requests.{deeds_of_request, is_full, taken_of, with_request};

use crate::NO_REPORT;
use arrayvec::ArrayVec;
use ssi_eval::run_body;
use ssi_image::{BodyAt, Image};
use ssi_state::State;

/// How many requests wait at most.
pub const MOST_WAITING: usize = 64;

/// The one panel that there is.
const PANEL: u8 = 0;

/// As many requests wait as may.
#[derive(Clone, Copy, Debug, PartialEq, Eq)]
pub struct Full;

/// Puts a request behind those that wait. Where 64 do, it answers `Full`, and nothing changes.
pub fn put_behind(waiting: &mut ArrayVec<u16, MOST_WAITING>, request: u16) -> Result<(), Full>
    ensures put { waiting.new.items ≡ with_request waiting.old.items request }
    ensures full { IsErr result ↔ IsTrue (is_full waiting.old.items) }
{
    if waiting.is_full() {
        return Err(Full);
    }
    waiting.push(request);
    Ok(())
}

/// Takes the oldest of the requests that wait, with its panel.
fn take_oldest(waiting: &mut ArrayVec<u16, MOST_WAITING>) -> Option<(u8, u16)>
    ensures taken { result ≡ taken_of waiting.old.items }
    ensures rest { waiting.new.items ≡ drop 1 waiting.old.items }
{
    if waiting.is_empty() {
        return None;
    }
    Some((PANEL, waiting.remove(0)))
}

/// Takes the oldest of the requests that wait, and lets its body act. Answers which it was, with its panel.
pub fn serve(
    image: &Image,
    waiting: &mut ArrayVec<u16, MOST_WAITING>,
    state: &mut State,
) -> Option<(u8, u16)>
    requires there { All (λ request. request < length image.now.requests) waiting.old.items }
    requires state { IsStateOf (counts_of image.now) state.old }
    ensures taken { result ≡ taken_of waiting.old.items }
    ensures rest { waiting.new.items ≡ drop 1 waiting.old.items }
    ensures effect { state.new ≡ after_deeds image.now state.old (deeds_of_request image.now (taken_of waiting.old.items)) }
    ensures answer { IsSome result ↔ (0 < length (deeds_of_request image.now (taken_of waiting.old.items))) }
{
    let taken = take_oldest(waiting)?;
    run_body(image, BodyAt::Request(taken.1), state, NO_REPORT);
    Some(taken)
}
