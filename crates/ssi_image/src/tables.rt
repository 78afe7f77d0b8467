//! Tables by which modules are found, by their address and by what is wired to them.

ghost use Rattle.std.specs.Prelude.{◌≡◌, ◌<◌, ◌≤◌, ◌+◌, Some, None, length, map, slice_get, slice_index_or, slice_set, unwrap_or, All, IfOk};
ghost use Rattle.ssi_identities.specs.DataSets.{ModulePlan, Plan};
ghost use Rattle.ssi_identities.specs.Limits.{address_count, most_modules, most_points, most_signals, most_tracks};
ghost use Rattle.ssi_image.specs.Packed.{packed_of, wiring_of};
ghost use Rattle.ssi_image.specs.Tables.{ArePlaces, AreTablesOf, AreWires, AreWiresBefore, noted};

use crate::packed::{Rows, Wiring};
use ssi_base::OutOfMemory;
use ssi_identities::Kind;
use ssi_identities::limits::ADDRESSES;
use std::alloc::Global;
use std::marker::Model;

/// Where modules are found.
#[derive(Drop)]
pub struct Tables {
    /// By the address, the number of the module that has it.
    pub places: Vec<Option<u8>>,
    /// By the number of points, the module and the pin that they are wired to.
    pub points: Vec<(u8, u8)>,
    /// The same of signals.
    pub signals: Vec<(u8, u8)>,
    /// The same of tracks.
    pub tracks: Vec<(u8, u8)>,
}

impl Model for Tables {
    ghost use Rattle.ssi_image.specs.Tables.{TablesOf};

    ghost Value = { TablesOf };

    ghost view = { λ tables. record { places = tables.places.items; points = tables.points.items; signals = tables.signals.items; tracks = tables.tracks.items } };
}

impl Tables {
    ghost use Rattle.ssi_image.specs.Tables.{wires_of};

    /// The wires of a kind of identity: points, signals, and tracks for all others.
    pub fn wires(&self, kind: Kind) -> &[(u8, u8)]
        ensures { result.now ≡ wires_of self.now kind }
    {
        match kind {
            Kind::Points => self.points.as_slice(),
            Kind::Signal => self.signals.as_slice(),
            _ => self.tracks.as_slice(),
        }
    }
}

/// Notes the number of a module at its address, unless an earlier module has it.
fn note_place(table: &mut Vec<Option<u8>>, address: u8, number: u8)
    requires { address < length table.old.items }
    ensures { table.new.items ≡ slice_set table.old.items address (Some (unwrap_or (slice_index_or table.old.items address None) number)) }
{
    let place = usize::from(address);
    table[place] = Some(table[place].unwrap_or(number));
}

/// The numbers of modules by their addresses.
fn places(alloc: Global, modules: &[Wiring]) -> Result<Vec<Option<u8>>, OutOfMemory>
    requires small { All (λ row. row.address < address_count) modules.now }
    requires few { length modules.now ≤ most_modules }
    ensures long { IfOk result (λ table. length table.items ≡ address_count) }
    ensures places { IfOk result (λ table. (plan : Plan) → modules.now ≡ map wiring_of plan.modules → ArePlaces plan table.items) }
{
    let mut table = vec![in alloc; None; ADDRESSES]?;
    for (number, row) in modules.iter().enumerate() {
        note_place(&mut table, row.address, number as u8);
    }
    Ok(table)
}

/// Notes what a pin of a module is wired to. An identity past the last is left out.
fn note_wire(table: &mut Vec<(u8, u8)>, wired: Option<u16>, number: u8, pin: u8)
    ensures { table.new.items ≡ noted table.old.items wired (number, pin) }
{
    if let Some(identity) = wired {
        let place = usize::from(identity);
        if place < table.len() {
            table[place] = (number, pin);
        }
    }
}

/// Notes what the pins of a module are wired to, if it is of the kind.
fn note_module(table: &mut Vec<(u8, u8)>, row: &Wiring, kind: u8, number: u8)
    requires few { length row.now.pins ≤ 8 }
    ensures same { length table.new.items ≡ length table.old.items }
    ensures wires { (plan : Plan) (wired : ModulePlan) → slice_get plan.modules number ≡ Some wired → wiring_of wired ≡ row.now
        → AreWiresBefore plan kind number 0 table.old.items → AreWiresBefore plan kind (number + 1) 0 table.new.items }
{
    if row.kind != kind {
        return;
    }
    for (pin, wired) in row.pins.iter().enumerate() {
        note_wire(table, *wired, number, pin as u8);
    }
}

/// By their numbers, the pins that so many identities are wired to, in modules of a kind: a module's number and its pin.
fn wires(
    alloc: Global,
    modules: &[Wiring],
    kind: u8,
    count: u16,
) -> Result<Vec<(u8, u8)>, OutOfMemory>
    requires pins { All (λ row. length row.pins ≤ 8) modules.now }
    requires few { length modules.now ≤ most_modules }
    ensures long { IfOk result (λ table. length table.items ≡ count) }
    ensures wires { IfOk result (λ table. (plan : Plan) → modules.now ≡ map wiring_of plan.modules → AreWires plan kind table.items) }
{
    let mut table = vec![in alloc; (0, 0); usize::from(count)]?;
    for (number, row) in modules.iter().enumerate() {
        note_module(&mut table, row, kind, number as u8);
    }
    Ok(table)
}

/// The tables of the rows of an image.
pub fn tables_of(alloc: Global, rows: &Rows) -> Result<Tables, OutOfMemory>
    requires small { All (λ row. row.address < address_count) rows.now.modules }
    requires pins { All (λ row. length row.pins ≤ 8) rows.now.modules }
    requires few { length rows.now.modules ≤ most_modules }
    requires points { length rows.now.points ≤ most_points }
    requires signals { length rows.now.signals ≤ most_signals }
    requires tracks { length rows.now.tracks ≤ most_tracks }
    ensures { IfOk result (λ tables. (plan : Plan) → rows.now ≡ packed_of plan → AreTablesOf plan tables) }
{
    let modules = rows.modules.as_slice();
    Ok(Tables {
        places: places(alloc, modules)?,
        points: wires(alloc, modules, 0, rows.points.len() as u16)?,
        signals: wires(alloc, modules, 1, rows.signals.len() as u16)?,
        tracks: wires(alloc, modules, 2, rows.tracks.len() as u16)?,
    })
}
