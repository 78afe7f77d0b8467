//! What PFM says of points, and OPT and IPT of modules, told in the rows of these.
//!
//! The entries of a file are told from the last to the first, as a `Vec` gives away its items.

ghost use Rattle.std.specs.Prelude.{◌≡◌, ◌≤◌, ◌<◌, [], length, map, All, IfOk, IfSome};
ghost use Rattle.ssi_names.specs.Declarations.{addresses_of};
ghost use Rattle.ssi_names.specs.Placing.{ArePlaces, changed_at, with_input, with_move, with_outputs};
ghost use Rattle.ssi_names.specs.Rows as spec;
ghost use Rattle.ssi_names.specs.Tables.{table_of, IsSmall};
ghost use Rattle.ssi_names.specs.Texts.{characters as characters_of, number as number_at};

use crate::rows::rows;
use crate::tables::Tables;
use crate::text::{characters, is_reverse};
use ssi_base::OutOfMemory;
use ssi_identities::{Body, Cond, ModuleRow, PointsRow};
use ssi_opt::OutputEntry;
use ssi_terms::{BodyTree, CondTree, ModuleEntry, PointsEntry, Spot};
use std::alloc::Global;

/// Tells when the points at a place are free to go to a lie.
fn tell_move(rows: &mut Vec<PointsRow>, place: Option<usize>, reverse: bool, cond: Cond)
    requires { IfSome place (λ i. i < length rows.old.items) }
    ensures { rows.new.items ≡ changed_at (λ row. with_move row reverse cond) place rows.old.items }
{
    if let Some(place) = place {
        let row = &mut rows[place];
        if reverse {
            row.free_reverse = Some(cond);
        } else {
            row.free_normal = Some(cond);
        }
    }
}

/// Tells when each bit that is sent to the module at a place is 1.
fn tell_outputs(rows: &mut Vec<ModuleRow>, place: Option<usize>, outputs: Vec<Option<Cond>>)
    requires { IfSome place (λ i. i < length rows.old.items) }
    ensures { rows.new.items ≡ changed_at (λ row. with_outputs row outputs.items) place rows.old.items }
{
    if let Some(place) = place {
        let row = &mut rows[place];
        row.outputs = outputs;
    }
}

/// Tells what the reports of the module at a place do.
fn tell_input(rows: &mut Vec<ModuleRow>, place: Option<usize>, body: Body)
    requires { IfSome place (λ i. i < length rows.old.items) }
    ensures { rows.new.items ≡ changed_at (λ row. with_input row body) place rows.old.items }
{
    if let Some(place) = place {
        let row = &mut rows[place];
        row.input = Some(body);
    }
}

/// The rows of points, with what the entries of PFM say of them.
pub fn points_rows(
    alloc: Global,
    text: &[u8],
    tables: &Tables,
    entries: &[PointsEntry],
    rules: &[(Spot, Spot, CondTree)],
    moves: Vec<Cond>,
) -> Result<Vec<PointsRow>, OutOfMemory>
    requires fit { All (λ entry. entry.name.len ≤ 16) entries.now }
    requires small { IsSmall tables.now }
    requires places { ArePlaces tables.now.points (map (λ entry. characters_of text.now entry.name) entries.now) }
    requires moves { moves.items ≡ map (λ rule. spec.condition text.now (table_of tables.now) rule.2) rules.now }
    ensures { IfOk result (λ rows. rows.items ≡ map (spec.points_row text.now (table_of tables.now) rules.now) entries.now) }
{
    let mut moves = moves;
    let mut rows = rows(alloc, text, tables, entries)?;
    while let Some(cond) = moves.pop() {
        let (name, lie, _cond) = &rules[moves.len()];
        let place = tables.points.find(characters(text, name));
        tell_move(&mut rows, place, is_reverse(text, lie), cond);
    }
    Ok(rows)
}

/// The rows of modules, with what the entries of OPT say of them.
fn output_rows(
    alloc: Global,
    text: &[u8],
    tables: &Tables,
    entries: &[ModuleEntry],
    outputs: &[OutputEntry],
    bits: Vec<Vec<Option<Cond>>>,
) -> Result<Vec<ModuleRow>, OutOfMemory>
    requires fit { All (λ entry. number_at text.now entry.address < 64) entries.now }
    requires small { IsSmall tables.now }
    requires places { ArePlaces tables.now.addresses (addresses_of text.now entries.now) }
    requires bits { map (λ row. row.items) bits.items ≡ map (spec.outputs_row text.now (table_of tables.now)) outputs.now }
    ensures { IfOk result (λ rows. rows.items ≡ map (spec.module_row text.now (table_of tables.now) outputs.now []) entries.now) }
{
    let mut bits = bits;
    let mut rows = rows(alloc, text, tables, entries)?;
    while let Some(row) = bits.pop() {
        let entry = &outputs[bits.len()];
        let place = tables.addresses.find(characters(text, &entry.address));
        tell_outputs(&mut rows, place, row);
    }
    Ok(rows)
}

/// The rows of modules, with what the entries of OPT and IPT say of them.
pub fn module_rows(
    alloc: Global,
    text: &[u8],
    tables: &Tables,
    entries: &[ModuleEntry],
    outputs: &[OutputEntry],
    bits: Vec<Vec<Option<Cond>>>,
    inputs: &[(Spot, BodyTree)],
    bodies: Vec<Body>,
) -> Result<Vec<ModuleRow>, OutOfMemory>
    requires fit { All (λ entry. number_at text.now entry.address < 64) entries.now }
    requires small { IsSmall tables.now }
    requires places { ArePlaces tables.now.addresses (addresses_of text.now entries.now) }
    requires bits { map (λ row. row.items) bits.items ≡ map (spec.outputs_row text.now (table_of tables.now)) outputs.now }
    requires bodies { bodies.items ≡ map (λ entry. spec.body text.now (table_of tables.now) entry.1) inputs.now }
    ensures { IfOk result (λ rows. rows.items ≡ map (spec.module_row text.now (table_of tables.now) outputs.now inputs.now) entries.now) }
{
    let mut bodies = bodies;
    let mut rows = output_rows(alloc, text, tables, entries, outputs, bits)?;
    while let Some(body) = bodies.pop() {
        let (address, _body) = &inputs[bodies.len()];
        let place = tables.addresses.find(characters(text, address));
        tell_input(&mut rows, place, body);
    }
    Ok(rows)
}
