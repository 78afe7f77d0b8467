//! What arrives in a slot.

ghost use Rattle.std.specs.Prelude.{◌≡◌, ◌<◌, ◌↔◌, IsTrue, Some, length, slice_get};
ghost use Rattle.ssi_identities.specs.DataSets.{ModulePlan, counts_of};
ghost use Rattle.ssi_identities.specs.States.{IsStateOf};
ghost use Rattle.ssi_identities.specs.Wells.{IsWell};
ghost use Rattle.ssi_cycle.specs.Deeds.{after_deeds};
ghost use Rattle.ssi_cycle.specs.Exchanges.{deeds_of_arrival, deeds_of_exchange, deeds_of_input, heard_from};

use crate::restriction::restrict;
use ssi_eval::run_body;
use ssi_image::{BodyAt, Image};
use ssi_state::State;
use ssi_telegrams::read_report;

/// The byte that the module at an address has reported, if it has.
fn heard(address: u8, arrived: Option<[u8; 4]>) -> Option<u8>
    ensures { result ≡ heard_from address arrived }
{
    read_report(address, arrived?)
}

/// Lets the input of a module act with a report's byte. Answers whether the module has one.
fn run_input(image: &Image, module: u8, byte: u8, state: &mut State) -> bool
    requires state { IsStateOf (counts_of image.now) state.old }
    ensures effect { (row : ModulePlan) → slice_get image.now.modules «module» ≡ Some row
        → state.new ≡ after_deeds image.now state.old (deeds_of_input row.input byte) }
    ensures answer { (row : ModulePlan) → slice_get image.now.modules «module» ≡ Some row
        → IsTrue result ↔ (0 < length (deeds_of_input row.input byte)) }
{
    let place = BodyAt::Input(module);
    let has = image.has_body(place);
    if has {
        run_body(image, place, state, byte);
    }
    has
}

/// Takes in what has arrived from a module. Answers whether that has a deed.
fn take_from(image: &Image, module: u8, heard: Option<u8>, state: &mut State) -> bool
    requires well { IsWell image.now }
    requires there { «module» < length image.now.modules }
    requires state { IsStateOf (counts_of image.now) state.old }
    ensures effect { (row : ModulePlan) → slice_get image.now.modules «module» ≡ Some row
        → state.new ≡ after_deeds image.now state.old (deeds_of_exchange (Some row) heard) }
    ensures answer { (row : ModulePlan) → slice_get image.now.modules «module» ≡ Some row
        → IsTrue result ↔ (0 < length (deeds_of_exchange (Some row) heard)) }
{
    match heard {
        Some(byte) => run_input(image, module, byte, state),
        None => {
            restrict(image, module, state);
            true
        }
    }
}

/// Takes in what has arrived in a slot. Answers whether that has a deed.
pub fn take_arrival(image: &Image, slot: u8, arrived: Option<[u8; 4]>, state: &mut State) -> bool
    requires well { IsWell image.now }
    requires state { IsStateOf (counts_of image.now) state.old }
    ensures effect { state.new ≡ after_deeds image.now state.old (deeds_of_arrival image.now slot arrived) }
    ensures answer { IsTrue result ↔ (0 < length (deeds_of_arrival image.now slot arrived)) }
{
    match image.module_at(slot) {
        Some(module) => take_from(image, module, heard(slot, arrived), state),
        None => false,
    }
}
