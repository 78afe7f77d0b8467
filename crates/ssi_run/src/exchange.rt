//! The exchange of a slot: what passes between the interlocking and its module.

ghost use Rattle.std.specs.Prelude.{◌≡◌, ◌<◌, ℕ, Some, map, option_map, slice_set, vec_len};
ghost use Rattle.ssi_cycle.specs.Exchanges.{module_in};
ghost use Rattle.ssi_identities.specs.DataSets.{ModulePlan};
ghost use Rattle.ssi_script.specs.Meanings.{IsAddressIn};
ghost use Rattle.ssi_script.specs.Sessions.{exchange_of};
ghost use Rattle.ssi_script.specs.Telegrams.{arrives, commanded};
ghost use Rattle.ssi_run.specs.Courses.{session_at};
ghost use Rattle.ssi_telegrams.specs.Telegram.{IsAddress, report_telegram_of};
ghost use Rattle.ssi_trackside.specs.Module.{report_of};
ghost use Rattle.ssi_trackside.specs.Shelf.{module_at, place_of};

use crate::marks::Marks;
use ssi_cycle::Interlocking;
use ssi_image::Image;
use ssi_script::Mark;
use ssi_telegrams::report_bytes;
use ssi_trackside::{Trackside, command_at, report_at, shelf_place};

/// What passed in an exchange.
#[derive(Clone, Copy)]
pub struct Exchange {
    /// The command that went out; none where the slot has no module.
    pub out: Option<[u8; 4]>,
    /// The four bytes that arrived, if any did.
    pub arrived: Option<[u8; 4]>,
}

/// Sends a command byte to the module at a place, unless a mark drops it.
fn send(shelf: &mut Vec<Box<dyn Trackside>>, place: usize, mark: Option<Mark>, value: u8)
    requires { place < vec_len shelf.old }
    ensures states { let states = map state shelf.old.items in
        map state shelf.new.items ≡ slice_set states place (commanded mark (module_at states place) value) }
    ensures length { vec_len shelf.new ≡ vec_len shelf.old }
{
    match mark {
        Some(Mark::Drop) => (),
        _ => command_at(shelf, place, value),
    }
}

/// The report of the module at a place, which has this address; none where it is dead.
fn report(shelf: &Vec<Box<dyn Trackside>>, place: usize, address: u8) -> Option<[u8; 4]>
    requires place { place < vec_len shelf.now }
    requires address { IsAddress address }
    ensures { result ≡ option_map (report_telegram_of address) (report_of (module_at (map state shelf.now.items) place)) }
{
    let value = report_at(shelf, place)?;
    Some(report_bytes(address, value))
}

/// What arrives from the module at a place, as a mark lets it.
fn arrival(
    shelf: &Vec<Box<dyn Trackside>>,
    place: usize,
    address: u8,
    mark: Option<Mark>,
) -> Option<[u8; 4]>
    requires place { place < vec_len shelf.now }
    requires address { IsAddress address }
    ensures { result ≡ arrives mark address (module_at (map state shelf.now.items) place) }
{
    match mark {
        None => report(shelf, place, address),
        Some(Mark::Raw(bytes)) => Some(bytes),
        Some(Mark::Lose | Mark::Drop) => None,
    }
}

/// The place on a shelf of the module that has an address.
fn place_with(image: &Image, address: u8) -> usize
    requires { IsAddressIn image.now address }
    ensures address { IsAddress address }
    ensures place { (row : ModulePlan) → module_in image.now address ≡ Some row → result ≡ place_of address row.kind }
    ensures within { result < 189 }
{
    // The layout is well, so its modules have places.
    let _well = image.counts();
    match image.module_at(address) {
        Some(module) => shelf_place(address, image.kind(module)),
        None => unreachable!(),
    }
}

/// Makes the exchange of the slot that comes next, and uses up the mark of its address. A slot without a module has none: nothing changes.
pub fn make_exchange(
    core: &Interlocking,
    shelf: &mut Vec<Box<dyn Trackside>>,
    marks: &mut Marks,
) -> Exchange
    requires full { vec_len shelf.old ≡ 189 }
    ensures passed { (number : ℕ) →
        (record { out = result.out; arrived = result.arrived; shelf = map state shelf.new.items; marks = marks.new })
        ≡ exchange_of (session_at core.now (map state shelf.old.items) marks.old number) }
    ensures length { vec_len shelf.new ≡ vec_len shelf.old }
{
    let address = core.slot();
    match core.output() {
        Some(out) => {
            let mark = marks.take(address);
            let place = place_with(core.image(), address);
            send(shelf, place, mark, out[1]);
            Exchange {
                out: Some(out),
                arrived: arrival(shelf, place, address, mark),
            }
        }
        None => Exchange {
            out: None,
            arrived: None,
        },
    }
}
