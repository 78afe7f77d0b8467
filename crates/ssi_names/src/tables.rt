//! Tables of the names that a text declares, and of those that its modules name.

ghost use Rattle.std.specs.Prelude.{◌≡◌, false, fold, map, true, None, IfOk, OnOk};
ghost use Rattle.ssi_identities.specs.Facts.{IsWithinLimits};
ghost use Rattle.ssi_names.specs.Bodies.{lacks_rule as lacks_rule_of};
ghost use Rattle.ssi_names.specs.Declarations.{names_at, pins_of, points_with_rules};
ghost use Rattle.ssi_names.specs.NameLists.{with_name};
ghost use Rattle.ssi_names.specs.Rows.{counts_by};
ghost use Rattle.ssi_names.specs.Scopes.{AreLimited};
ghost use Rattle.ssi_names.specs.Tables.{AreTablesOf, knows, no_tables, rules, table_of, tables_of_identities};
ghost use Rattle.ssi_names.specs.Texts.{characters as characters_of};

use crate::name_set::NameSet;
use crate::named::Named;
use crate::source::SourceTree;
use crate::text::{characters, is_reverse};
use ssi_base::OutOfMemory;
use ssi_identities::limits::{
    MOST_FLAGS, MOST_POINTS, MOST_REQUESTS, MOST_ROUTES, MOST_SIGNALS, MOST_SUBS, MOST_TRACKS,
};
use ssi_identities::{Counts, Kind};
use ssi_terms::{CondTree, IdentityTree, ModuleEntry, Spot};
use std::alloc::Global;

/// The names of each kind that are declared, and the names that modules have at their pins.
#[derive(Drop)]
pub struct Tables {
    pub points: NameSet,
    pub signals: NameSet,
    pub tracks: NameSet,
    pub routes: NameSet,
    pub subs: NameSet,
    pub flags: NameSet,
    pub requests: NameSet,
    /// The names at pins.
    pub wired: NameSet,
    /// The addresses of modules, as they are written.
    pub addresses: NameSet,
    /// Points for which a rule says when they are free to go to normal.
    pub free_normal: NameSet,
    /// Points for which a rule says when they are free to go to reverse.
    pub free_reverse: NameSet,
}

/// The names of a kind.
pub fn table(tables: &Tables, kind: Kind) -> &NameSet
    ensures { result.now ≡ table_of tables.now kind }
{
    match kind {
        Kind::Points => &tables.points,
        Kind::Signal => &tables.signals,
        Kind::Track => &tables.tracks,
        Kind::Route => &tables.routes,
        Kind::Subroute => &tables.subs,
        Kind::Flag => &tables.flags,
        Kind::Request => &tables.requests,
    }
}

/// Whether a name of the kind is declared.
pub fn is_known(tables: &Tables, kind: Kind, name: &[u8]) -> bool
    ensures { result ≡ knows tables.now kind name.now }
{
    table(tables, kind).contains(name)
}

/// Whether a test asks for a lie of points, and no rule says when they are free to go to it.
pub fn lacks_rule(tables: &Tables, name: &[u8], lie: Option<bool>) -> bool
    ensures { result ≡ lacks_rule_of (rules tables.now name.now) lie }
{
    match lie {
        Some(true) => !tables.free_reverse.contains(name),
        Some(false) => !tables.free_normal.contains(name),
        None => false,
    }
}

/// How many names of each kind there are; nothing where there are more of a kind than a layout may have.
pub fn counts_within(tables: &Tables) -> Option<Counts>
    ensures limited { AreLimited result (table_of tables.now) }
    ensures past { result ≡ None → ¬ IsWithinLimits (counts_by (table_of tables.now)) }
{
    let few = tables.points.len() <= MOST_POINTS
        && tables.signals.len() <= MOST_SIGNALS
        && tables.tracks.len() <= MOST_TRACKS
        && tables.routes.len() <= MOST_ROUTES
        && tables.subs.len() <= MOST_SUBS
        && tables.flags.len() <= MOST_FLAGS
        && tables.requests.len() <= MOST_REQUESTS;
    if !few {
        return None;
    }
    Some(Counts {
        points: tables.points.len() as u16,
        signals: tables.signals.len() as u16,
        tracks: tables.tracks.len() as u16,
        routes: tables.routes.len() as u16,
        subs: tables.subs.len() as u16,
        flags: tables.flags.len() as u16,
        requests: tables.requests.len() as u16,
    })
}

/// Tables with no names.
fn no_names(alloc: Global) -> Tables
    ensures { result ≡ no_tables }
{
    Tables {
        points: NameSet::new(alloc),
        signals: NameSet::new(alloc),
        tracks: NameSet::new(alloc),
        routes: NameSet::new(alloc),
        subs: NameSet::new(alloc),
        flags: NameSet::new(alloc),
        requests: NameSet::new(alloc),
        wired: NameSet::new(alloc),
        addresses: NameSet::new(alloc),
        free_normal: NameSet::new(alloc),
        free_reverse: NameSet::new(alloc),
    }
}

/// The tables of a tree.
pub fn tables_of(alloc: Global, text: &[u8], tree: &SourceTree) -> Result<Tables, OutOfMemory>
    ensures { IfOk result (AreTablesOf text.now tree.now) }
{
    let mut tables = no_names(alloc);
    add_identities(alloc, text, &mut tables, &tree.identities)?;
    let requests = tree.requests.entries.as_slice();
    add_names(alloc, text, &mut tables.requests, requests)?;
    let rules = tree.free.entries.as_slice();
    let (normal, reverse) = (&mut tables.free_normal, &mut tables.free_reverse);
    add_rules(alloc, text, normal, reverse, rules)?;
    Ok(tables)
}

/// Adds the names that the files of identities declare, those at pins, and the addresses of modules.
fn add_identities(
    alloc: Global,
    text: &[u8],
    tables: &mut Tables,
    tree: &IdentityTree,
) -> Result<(), OutOfMemory>
    requires { tables.old ≡ no_tables }
    ensures { OnOk result (tables.new ≡ tables_of_identities text.now tree.now) }
{
    add_names(alloc, text, &mut tables.points, tree.points.as_slice())?;
    add_names(alloc, text, &mut tables.signals, tree.signals.as_slice())?;
    add_names(alloc, text, &mut tables.tracks, tree.tracks.as_slice())?;
    add_names(alloc, text, &mut tables.routes, tree.routes.as_slice())?;
    add_names(alloc, text, &mut tables.subs, tree.subs.as_slice())?;
    add_names(alloc, text, &mut tables.flags, tree.flags.as_slice())?;
    add_wired(alloc, text, &mut tables.wired, tree.modules.as_slice())?;
    add_names(alloc, text, &mut tables.addresses, tree.modules.as_slice())?;
    Ok(())
}

/// Adds the names that entries declare.
fn add_names<X: Named>(
    alloc: Global,
    text: &[u8],
    names: &mut NameSet,
    entries: &[X],
) -> Result<(), OutOfMemory>
    ensures { OnOk result (names.new
        ≡ fold with_name names.old (map (λ entry. characters_of text.now (X.name_of entry)) entries.now)) }
{
    for entry in entries {
        names.add(alloc, characters(text, &entry.name()))?;
    }
    Ok(())
}

/// Adds the points of entries of PFM, each to those for the lie that the entry is for.
fn add_rules(
    alloc: Global,
    text: &[u8],
    normal: &mut NameSet,
    reverse: &mut NameSet,
    rules: &[(Spot, Spot, CondTree)],
) -> Result<(), OutOfMemory>
    ensures normal { OnOk result (normal.new ≡ fold with_name normal.old (points_with_rules text.now rules.now false)) }
    ensures reverse { OnOk result (reverse.new ≡ fold with_name reverse.old (points_with_rules text.now rules.now true)) }
{
    for (name, lie, _cond) in rules {
        if is_reverse(text, lie) {
            reverse.add(alloc, characters(text, name))?;
        } else {
            normal.add(alloc, characters(text, name))?;
        }
    }
    Ok(())
}

/// Adds the names that modules have at their pins.
fn add_wired(
    alloc: Global,
    text: &[u8],
    names: &mut NameSet,
    modules: &[ModuleEntry],
) -> Result<(), OutOfMemory>
    ensures { OnOk result (names.new ≡ fold with_name names.old (names_at text.now (pins_of modules.now))) }
{
    for entry in modules {
        add_pins(alloc, text, names, entry.pins.as_slice())?;
    }
    Ok(())
}

/// Adds the names at the pins of a module.
fn add_pins(
    alloc: Global,
    text: &[u8],
    names: &mut NameSet,
    pins: &[(Spot, Spot)],
) -> Result<(), OutOfMemory>
    ensures { OnOk result (names.new ≡ fold with_name names.old (names_at text.now pins.now)) }
{
    for (name, _pin) in pins {
        names.add(alloc, characters(text, name))?;
    }
    Ok(())
}
