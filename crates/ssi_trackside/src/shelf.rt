//! A shelf: the boxes of all modules in one list, three places for each address.

ghost use Rattle.std.specs.Prelude.{◌≡◌, ◌↔◌, ◌<◌, ◌≤◌, IsTrue, map, vec_len, slice_set};
ghost use Rattle.ssi_trackside.specs.Module.{after_command, after_event, fresh, report_of};
ghost use Rattle.ssi_trackside.specs.Shelf.{IsShelf, module_at, place_of};

use crate::Trackside;
use crate::events::Event;

/// How many members a full shelf has: one of each kind for each address from 1 to 63.
const FULL: usize = 189;

/// The place on a shelf of the module with `address`, which is 1 to 63, and `kind`, as in `kinds`.
pub fn shelf_place(address: u8, kind: u8) -> usize
    requires address { (1 ≤ address) × (address ≤ 63) }
    requires kind { kind < 3 }
    ensures { result ≡ place_of address kind }
{
    3 * (address as usize - 1) + kind as usize
}

/// Sends a command byte to the member at `place`, which is on the shelf. All others stay.
pub fn command_at(shelf: &mut Vec<Box<dyn Trackside>>, place: usize, value: u8)
    requires { place < vec_len shelf.old }
    ensures states { let states = map state shelf.old.items in
        map state shelf.new.items ≡ slice_set states place (after_command (module_at states place) value) }
    ensures length { vec_len shelf.new ≡ vec_len shelf.old }
{
    command_one(&mut shelf[place], value);
}

/// Asks the member at `place`, which is on the shelf, for its report: `None` exactly where it is dead.
pub fn report_at(shelf: &Vec<Box<dyn Trackside>>, place: usize) -> Option<u8>
    requires { place < vec_len shelf.now }
    ensures { result ≡ report_of (module_at (map state shelf.now.items) place) }
{
    report_one(&shelf[place])
}

/// Tells the member at `place`, which is on the shelf, an event. All others stay.
pub fn event_at(shelf: &mut Vec<Box<dyn Trackside>>, place: usize, event: Event)
    requires { place < vec_len shelf.old }
    ensures states { let states = map state shelf.old.items in
        map state shelf.new.items ≡ slice_set states place (after_event (module_at states place) event) }
    ensures length { vec_len shelf.new ≡ vec_len shelf.old }
{
    event_one(&mut shelf[place], event);
}

/// Whether the shelf is full and fresh: 189 members, the one for each address and kind at its
/// place, of that kind and fresh.
pub fn is_shelf(shelf: &Vec<Box<dyn Trackside>>) -> bool
    ensures { IsTrue result ↔ IsShelf (map state shelf.now.items) }
{
    if shelf.len() != FULL {
        return false;
    }
    for place in 0..FULL {
        if !is_fresh_of_kind(&shelf[place], (place % 3) as u8) {
            return false;
        }
    }
    true
}

fn command_one(member: &mut Box<dyn Trackside>, value: u8)
    ensures { state member.new ≡ after_command (state member.old) value }
{
    member.command(value);
}

fn report_one(member: &Box<dyn Trackside>) -> Option<u8>
    ensures { result ≡ report_of (state member.now) }
{
    member.report()
}

fn event_one(member: &mut Box<dyn Trackside>, event: Event)
    ensures { state member.new ≡ after_event (state member.old) event }
{
    member.event(event);
}

fn is_fresh_of_kind(member: &Box<dyn Trackside>, kind: u8) -> bool
    ensures { IsTrue result ↔ (state member.now ≡ fresh kind) }
{
    member.kind() == kind && member.is_fresh()
}
