//! Whether trackside modules are well, and whether each identity is wired once.

ghost use Rattle.std.specs.Prelude.{◌≡◌, ◌↔◌, ℕ, ◌<◌, ◌≤◌, ◌==◌, if◌then◌else◌, [], length, map, All, IfSome, IsTrue};
ghost use Rattle.std.specs.List.{IsDistinct, count_by};
ghost use Rattle.ssi_identities.specs.DataSets.{names_in};
ghost use Rattle.ssi_identities.specs.Deciding.{capped};
ghost use Rattle.ssi_identities.specs.Wells.{IsWellModule, IsWiredOnce, is_wired_to, pin_count, pins_of_kind, wired_kind};

use crate::data_set::{DataSet, ModuleRow};
use crate::limits::ADDRESSES;
use crate::well_numbers::do_numbers_differ;

/// Whether each module is well.
pub fn are_well_modules(plan: &DataSet) -> bool
    ensures { IsTrue result ↔ All (IsWellModule plan.now) plan.now.modules }
{
    plan.modules.iter().all(|row| is_well_module(plan, row))
}

fn is_well_module(plan: &DataSet, row: &ModuleRow) -> bool
    ensures { IsTrue result ↔ IsWellModule plan.now row.now }
{
    if row.address == 0 || usize::from(row.address) >= ADDRESSES || row.kind > 2 {
        return false;
    }
    if row.pins.len() != pin_count(row.kind) {
        return false;
    }
    are_well_pins(row.pins.as_slice(), wired_count(plan, row.kind))
}

/// How many pins a module of this kind has.
fn pin_count(kind: u8) -> usize
    ensures { result ≡ pin_count kind }
{
    if kind == 0 { 2 } else { 8 }
}

/// How many identities there are that a module of this kind may be wired to.
fn wired_count(plan: &DataSet, kind: u8) -> usize
    ensures { result ≡ length (names_in plan.now (wired_kind kind)) }
{
    match kind {
        0 => plan.points.len(),
        1 => plan.signals.len(),
        _ => plan.tracks.len(),
    }
}

/// Whether each pin is empty or wired to one of so many identities.
fn are_well_pins(pins: &[Option<u16>], count: usize) -> bool
    ensures { IsTrue result ↔ All (λ pin. IfSome pin (λ identity. identity < count)) pins.now }
{
    pins.iter().all(|pin| is_well_pin(pin, count))
}

fn is_well_pin(pin: &Option<u16>, count: usize) -> bool
    ensures { IsTrue result ↔ IfSome pin.now (λ identity. identity < count) }
{
    match pin {
        Some(identity) => usize::from(*identity) < count,
        None => true,
    }
}

/// Whether no two modules have one address.
pub fn do_addresses_differ(plan: &DataSet) -> bool
    ensures { IsTrue result ↔ IsDistinct (λ a b. a == b) (map (λ row. row.address) plan.now.modules) }
{
    do_numbers_differ(plan.modules.as_slice())
}

/// Whether each points, signal and track stands at exactly one pin of the modules of its kind.
pub fn are_all_wired_once(plan: &DataSet) -> bool
    ensures { IsTrue result ↔ ((kind : ℕ) → kind ≤ 2 → (identity : ℕ)
        → identity < length (names_in plan.now (wired_kind kind)) → IsWiredOnce plan.now kind identity) }
{
    for kind in 0..3 {
        if !are_wired_once(plan, kind) {
            return false;
        }
    }
    true
}

/// Whether each identity that modules of this kind are wired to stands at exactly one of their pins.
fn are_wired_once(plan: &DataSet, kind: u8) -> bool
    ensures { IsTrue result ↔ ((identity : ℕ)
        → identity < length (names_in plan.now (wired_kind kind)) → IsWiredOnce plan.now kind identity) }
{
    for identity in 0..wired_count(plan, kind) {
        if wire_count(plan, kind, identity) != 1 {
            return false;
        }
    }
    true
}

/// At how many pins of the modules of this kind an identity stands.
fn wire_count(plan: &DataSet, kind: u8, identity: usize) -> u64
    ensures { result ≡ capped (count_by (is_wired_to identity) (pins_of_kind plan.now kind)) }
{
    let mut count = 0_u64;
    for row in plan.modules.as_slice() {
        count = count.saturating_add(pins_wired_to(pins_of(row, kind), identity) as u64);
    }
    count
}

/// The pins of a module of this kind; none of a module of another.
fn pins_of(row: &ModuleRow, kind: u8) -> &[Option<u16>]
    ensures { result.now ≡ (if row.now.kind == kind then row.now.pins else []) }
{
    if row.kind == kind {
        row.pins.as_slice()
    } else {
        &[]
    }
}

fn pins_wired_to(pins: &[Option<u16>], identity: usize) -> usize
    ensures { result ≡ count_by (is_wired_to identity) pins.now }
{
    pins.iter().filter(|pin| is_wired_to(pin, identity)).count()
}

fn is_wired_to(pin: &Option<u16>, identity: usize) -> bool
    ensures { result ≡ is_wired_to identity pin.now }
{
    match pin {
        Some(wired) => usize::from(*wired) == identity,
        None => false,
    }
}
