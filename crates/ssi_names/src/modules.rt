//! TFM.

ghost use Rattle.std.specs.Prelude.{◌≡◌, ◌∷◌, ◌++◌, ◌≤◌, ◌||◌, ◌==◌, [], false, true, not, nat_le, min, fold, slice_index_or, slice_set, OnOk};
ghost use Rattle.ssi_identities.specs.Wells.{pin_count, wired_kind};
ghost use Rattle.ssi_names.specs.Codes as code;
ghost use Rattle.ssi_names.specs.Declarations.{names_at};
ghost use Rattle.ssi_names.specs.Faults as spec;
ghost use Rattle.ssi_names.specs.NameLists.{is_among, with_name};
ghost use Rattle.ssi_names.specs.Occurrences.{at, in_order};
ghost use Rattle.ssi_names.specs.Tables.{known_by, knows};
ghost use Rattle.ssi_names.specs.Texts.{characters as characters_of, number};

use crate::code::{BAD_PIN, TWICE, UNKNOWN, WIRED_TWICE};
use crate::fault::{Fault, note};
use crate::name_set::NameSet;
use crate::tables::{Tables, is_known};
use crate::text::{characters, small_number};
use crate::words::module_kind;
use ssi_base::OutOfMemory;
use ssi_identities::Kind;
use ssi_identities::limits::ADDRESSES;
use ssi_terms::{ModuleEntry, Spot};
use std::alloc::Global;

/// How many pins a module has at most, and how many bits are sent to it.
pub const PINS: usize = 8;

/// Marks a number, and answers whether it was marked. A number past the marks is not.
fn mark(marks: &mut [bool], number: u8) -> bool
    ensures was { result ≡ slice_index_or marks.old number false }
    ensures marks { marks.new ≡ slice_set marks.old number true }
{
    let place = usize::from(number);
    if place >= marks.len() {
        return false;
    }
    let was = marks[place];
    marks[place] = true;
    was
}

/// The kind of identity at the pins of a module of this kind, and how many pins it has.
pub fn pins_by_kind(kind: u8) -> (Kind, u8)
    ensures kind { result.0 ≡ wired_kind kind }
    ensures count { result.1 ≡ pin_count kind }
{
    match kind {
        0 => (Kind::Points, 2),
        1 => (Kind::Signal, 8),
        _ => (Kind::Track, 8),
    }
}

/// Notes the fault of a module's address. An address that is used is marked.
fn address(
    text: &[u8],
    used: &mut [bool; ADDRESSES],
    spot: &Spot,
    faults: &mut Vec<Fault>,
) -> Result<(), OutOfMemory>
    ensures faults { OnOk result (let address = min (number text.now spot.now) 255 in
        faults.new.items ≡ faults.old.items ++ at spot.now ((address == 0 || nat_le 64 address, code.bad_pin)
        ∷ (slice_index_or used.old address false, code.twice) ∷ [])) }
    ensures used { used.new ≡ slice_set used.old (min (number text.now spot.now) 255) true }
{
    let address = small_number(text, spot);
    let bad = address == 0 || usize::from(address) >= ADDRESSES;
    let again = mark(used, address);
    note(faults, spot, &[(bad, BAD_PIN), (again, TWICE)])
}

/// Notes the fault of the name at a pin. The name is seen then.
fn pin_name(
    alloc: Global,
    text: &[u8],
    tables: &Tables,
    kind: Kind,
    seen: &mut NameSet,
    spot: &Spot,
    faults: &mut Vec<Fault>,
) -> Result<(), OutOfMemory>
    ensures faults { OnOk result (let name = characters_of text.now spot.now in
        faults.new.items ≡ faults.old.items ++ at spot.now ((not (knows tables.now kind name), code.unknown)
        ∷ (is_among name seen.old, code.wired_twice) ∷ [])) }
    ensures seen { OnOk result (seen.new ≡ with_name seen.old (characters_of text.now spot.now)) }
{
    let name = characters(text, spot);
    let unknown = !is_known(tables, kind, name);
    let again = seen.add(alloc, name)?;
    note(faults, spot, &[(unknown, UNKNOWN), (again, WIRED_TWICE)])
}

/// Notes the fault of the number of a pin or a bit, where there are so many. One that is used is marked.
pub fn pin_number(
    text: &[u8],
    count: u8,
    used: &mut [bool; PINS],
    spot: &Spot,
    faults: &mut Vec<Fault>,
) -> Result<(), OutOfMemory>
    ensures faults { OnOk result (let pin = min (number text.now spot.now) 255 in
        faults.new.items ≡ faults.old.items
        ++ at spot.now ((nat_le count pin || slice_index_or used.old pin false, code.bad_pin) ∷ [])) }
    ensures used { used.new ≡ slice_set used.old (min (number text.now spot.now) 255) true }
{
    let pin = small_number(text, spot);
    let again = mark(used, pin);
    let bad = pin >= count || again;
    note(faults, spot, &[(bad, BAD_PIN)])
}

/// Notes the faults of the names and pins of a module. The names are seen then.
fn pins(
    alloc: Global,
    text: &[u8],
    tables: &Tables,
    kind: Kind,
    count: u8,
    seen: &mut NameSet,
    entries: &[(Spot, Spot)],
    faults: &mut Vec<Fault>,
) -> Result<(), OutOfMemory>
    requires { count ≤ 8 }
    ensures faults { OnOk result (faults.new.items ≡ faults.old.items
        ++ in_order (spec.pin_faults (known_by text.now tables.now) kind count (λ name. is_among name seen.old)) [] entries.now) }
    ensures seen { OnOk result (seen.new ≡ fold with_name seen.old (names_at text.now entries.now)) }
{
    let mut used = [false; PINS];
    for (name, number) in entries {
        pin_name(alloc, text, tables, kind, seen, name, faults)?;
        pin_number(text, count, &mut used, number, faults)?;
    }
    Ok(())
}

/// Notes the faults of TFM.
pub fn modules(
    alloc: Global,
    text: &[u8],
    tables: &Tables,
    entries: &[ModuleEntry],
    faults: &mut Vec<Fault>,
) -> Result<(), OutOfMemory>
    ensures { OnOk result (faults.new.items ≡ faults.old.items
        ++ in_order (spec.module_faults (known_by text.now tables.now)) [] entries.now) }
{
    let mut seen = NameSet::new(alloc);
    let mut used = [false; ADDRESSES];
    for entry in entries {
        address(text, &mut used, &entry.address, faults)?;
        let (kind, count) = pins_by_kind(module_kind(characters(text, &entry.kind)));
        let named = entry.pins.as_slice();
        pins(alloc, text, tables, kind, count, &mut seen, named, faults)?;
    }
    Ok(())
}
