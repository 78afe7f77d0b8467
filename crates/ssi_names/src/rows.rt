//! Rows of the data set, with numbers for names.

ghost use Rattle.std.specs.Prelude.{◌≡◌, ◌≤◌, ◌<◌, ℕ, List, [], length, map, All, IfOk};
ghost use Rattle.ssi_identities.specs.declared.fact.Kind.{Kind as Kinds};
ghost use Rattle.ssi_names.specs.Declarations.{addresses_of};
ghost use Rattle.ssi_names.specs.Formed.{IsFormed};
ghost use Rattle.ssi_names.specs.Placing.{ArePlaces};
ghost use Rattle.ssi_names.specs.RuleRows.{AreRowsOf};
ghost use Rattle.ssi_names.specs.Rows as spec;
ghost use Rattle.ssi_names.specs.Tables.{table_of, IsSmall};
ghost use Rattle.ssi_names.specs.Texts.{characters as characters_of, number as number_at};

use crate::faults::Judged;
use crate::name_set::NameSet;
use crate::placing::{module_rows, points_rows};
use crate::source::SourceTree;
use crate::tables::Tables;
use crate::text::{characters, is_reverse};
use ssi_base::OutOfMemory;
use ssi_identities::{DataSet, Name, PointsRow, RouteRow, SubRow};
use ssi_terms::{PointsEntry, RouteEntry, Spot, SubEntry};
use std::alloc::Global;

/// A row that is made of an entry.
pub trait RowOf<X>: Drop {
    ghost row_of: { List ℕ → (Kinds → List (List ℕ)) → X → Self };

    ghost is_fit: { List ℕ → X → Type 0 };

    /// The row of an entry.
    fn row(alloc: Global, text: &[u8], tables: &Tables, entry: &X) -> Result<Self, OutOfMemory>
        requires fit { is_fit text.now entry.now }
        requires small { IsSmall tables.now }
        ensures { IfOk result (λ row. row ≡ row_of text.now (table_of tables.now) entry.now) };
}

/// The rows of entries.
pub fn rows<X, R: RowOf<X>>(
    alloc: Global,
    text: &[u8],
    tables: &Tables,
    entries: &[X],
) -> Result<Vec<R>, OutOfMemory>
    requires fit { All (R.is_fit text.now) entries.now }
    requires small { IsSmall tables.now }
    ensures { IfOk result (λ rows. rows.items ≡ map (R.row_of text.now (table_of tables.now)) entries.now) }
{
    let mut rows = Vec::with_capacity(alloc, entries.len())?;
    for entry in entries {
        rows.push(R::row(alloc, text, tables, entry)?)?;
    }
    Ok(rows)
}

/// The number of a name; the count of names where it isn't there.
pub fn number(text: &[u8], names: &NameSet, name: &Spot) -> u16
    requires { length names.now < 65536 }
    ensures { result ≡ spec.number_in text.now names.now name.now }
{
    match names.find(characters(text, name)) {
        Some(place) => place as u16,
        None => names.len() as u16,
    }
}

/// The numbers of some names.
fn numbers(
    alloc: Global,
    text: &[u8],
    names: &NameSet,
    spots: &[Spot],
) -> Result<Vec<u16>, OutOfMemory>
    requires { length names.now < 65536 }
    ensures { IfOk result (λ numbers.
        numbers.items ≡ map (spec.number_in text.now names.now) spots.now) }
{
    let mut numbers = Vec::with_capacity(alloc, spots.len())?;
    for spot in spots {
        numbers.push(number(text, names, spot))?;
    }
    Ok(numbers)
}

impl RowOf<Spot> for Name {
    ghost row_of = { λ text names entry. characters_of text entry };

    ghost is_fit = { λ text entry. entry.len ≤ 16 };

    fn row(
        _alloc: Global,
        text: &[u8],
        _tables: &Tables,
        entry: &Spot,
    ) -> Result<Name, OutOfMemory> {
        Ok(Name::new(characters(text, entry)))
    }
}

impl RowOf<PointsEntry> for PointsRow {
    ghost row_of = { λ text names. spec.points_row text names [] };

    ghost is_fit = { λ text entry. entry.name.len ≤ 16 };

    fn row(
        alloc: Global,
        text: &[u8],
        tables: &Tables,
        entry: &PointsEntry,
    ) -> Result<PointsRow, OutOfMemory> {
        let name = Name::new(characters(text, &entry.name));
        let tracks = numbers(alloc, text, &tables.tracks, entry.tracks.as_slice())?;
        Ok(PointsRow {
            name,
            tracks,
            free_normal: None,
            free_reverse: None,
        })
    }
}

impl RowOf<RouteEntry> for RouteRow {
    ghost row_of = { spec.route_row };

    ghost is_fit = { λ text entry. entry.name.len ≤ 16 };

    fn row(
        alloc: Global,
        text: &[u8],
        tables: &Tables,
        entry: &RouteEntry,
    ) -> Result<RouteRow, OutOfMemory> {
        let name = Name::new(characters(text, &entry.name));
        let signal = number(text, &tables.signals, &entry.signal);
        let subs = numbers(alloc, text, &tables.subs, entry.subs.as_slice())?;
        Ok(RouteRow { name, signal, subs })
    }
}

/// Points of a sub-route, and whether they have to lie reverse.
impl RowOf<(Spot, Spot)> for (u16, bool) {
    ghost row_of = { spec.lie_row };

    ghost is_fit = { λ text entry. Unit {0} };

    fn row(
        _alloc: Global,
        text: &[u8],
        tables: &Tables,
        entry: &(Spot, Spot),
    ) -> Result<(u16, bool), OutOfMemory> {
        let reverse = is_reverse(text, &entry.1);
        Ok((number(text, &tables.points, &entry.0), reverse))
    }
}

impl RowOf<SubEntry> for SubRow {
    ghost row_of = { spec.sub_row };

    ghost is_fit = { λ text entry. entry.name.len ≤ 16 };

    fn row(
        alloc: Global,
        text: &[u8],
        tables: &Tables,
        entry: &SubEntry,
    ) -> Result<SubRow, OutOfMemory> {
        let name = Name::new(characters(text, &entry.name));
        let track = number(text, &tables.tracks, &entry.track);
        let lies = rows(alloc, text, tables, entry.lies.as_slice())?;
        Ok(SubRow { name, track, lies })
    }
}

/// The data set of a tree, by its tables of names and the rows of its files of rules.
pub fn data_set(
    alloc: Global,
    text: &[u8],
    tables: &Tables,
    tree: &SourceTree,
    judged: Judged,
) -> Result<DataSet, OutOfMemory>
    requires formed { IsFormed text.now tree.now }
    requires small { IsSmall tables.now }
    requires addresses { All (λ entry. number_at text.now entry.address < 64) tree.now.identities.modules }
    requires points { ArePlaces tables.now.points (map (λ entry. characters_of text.now entry.name) tree.now.identities.points) }
    requires modules { ArePlaces tables.now.addresses (addresses_of text.now tree.now.identities.modules) }
    requires rows { AreRowsOf text.now (table_of tables.now) tree.now judged }
    ensures { IfOk result (λ plan. plan ≡ spec.plan_by text.now (table_of tables.now) tree.now) }
{
    let files = &tree.identities;
    let Judged {
        faults: _,
        requests,
        moves,
        statements,
        outputs,
        inputs,
    } = judged;
    let points = points_rows(
        alloc,
        text,
        tables,
        files.points.as_slice(),
        tree.free.entries.as_slice(),
        moves,
    )?;
    let modules = module_rows(
        alloc,
        text,
        tables,
        files.modules.as_slice(),
        tree.outputs.entries.as_slice(),
        outputs,
        tree.inputs.entries.as_slice(),
        inputs,
    )?;
    Ok(DataSet {
        points,
        signals: rows(alloc, text, tables, files.signals.as_slice())?,
        tracks: rows(alloc, text, tables, files.tracks.as_slice())?,
        routes: rows(alloc, text, tables, files.routes.as_slice())?,
        subs: rows(alloc, text, tables, files.subs.as_slice())?,
        flags: rows(alloc, text, tables, files.flags.as_slice())?,
        requests,
        statements,
        modules,
    })
}
