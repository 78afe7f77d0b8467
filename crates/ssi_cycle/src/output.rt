//! The command that goes out in a slot.

ghost use Rattle.std.specs.Prelude.{◌≡◌, ◌<◌, if◌then◌else◌, Some, length, slice_get};
ghost use Rattle.ssi_identities.specs.DataSets.{ModulePlan, counts_of};
ghost use Rattle.ssi_identities.specs.States.{IsStateOf};
ghost use Rattle.ssi_image.specs.Places.{output_of};
ghost use Rattle.ssi_identities.specs.Wells.{IsWell};
ghost use Rattle.ssi_cycle.specs.Outputs.{output_bit, output_byte, output_in};

use crate::NO_REPORT;
use ssi_eval::eval_cond;
use ssi_identities::limits::BITS;
use ssi_image::{CondAt, Image};
use ssi_state::State;
use ssi_telegrams::command_bytes;

/// A bit that goes to a module: 1 or 0.
fn bit(image: &Image, module: u8, bit: u8, state: &State) -> u8
    requires state { IsStateOf (counts_of image.now) state.now }
    ensures { result ≡ (if output_bit image.now state.now (output_of image.now «module» bit) then 1 else 0) }
{
    let place = CondAt::Output { module, bit };
    if image.has_cond(place) && eval_cond(image, place, state, NO_REPORT) {
        1
    } else {
        0
    }
}

/// The byte that goes to a module.
fn byte(image: &Image, module: u8, state: &State) -> u8
    requires well { IsWell image.now }
    requires there { «module» < length image.now.modules }
    requires state { IsStateOf (counts_of image.now) state.now }
    ensures { (row : ModulePlan) → slice_get image.now.modules «module» ≡ Some row
        → result ≡ output_byte image.now state.now row }
{
    let mut byte = 0;
    for place in 0..BITS {
        byte = 2 * byte + bit(image, module, BITS - 1 - place, state);
    }
    byte
}

/// The telegram that goes out in a slot; none where the slot has no module.
pub fn output(image: &Image, slot: u8, state: &State) -> Option<[u8; 4]>
    requires well { IsWell image.now }
    requires state { IsStateOf (counts_of image.now) state.now }
    ensures { result ≡ output_in image.now slot state.now }
{
    let module = image.module_at(slot)?;
    Some(command_bytes(slot, byte(image, module, state)))
}
