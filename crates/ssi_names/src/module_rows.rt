//! Trackside modules with numbers of identities.

ghost use Rattle.std.specs.Prelude.{◌≡◌, ◌≤◌, ◌<◌, [], Some, length, replicate, None, slice_set, IfOk};
ghost use Rattle.ssi_names.specs.ModuleRows as spec;
ghost use Rattle.ssi_names.specs.Rows.{module_row};
ghost use Rattle.ssi_names.specs.Texts.{number as number_at};

use crate::modules::pins_by_kind;
use crate::name_set::NameSet;
use crate::rows::{RowOf, number};
use crate::tables::{Tables, table};
use crate::text::{characters, small_number};
use crate::words::module_kind;
use ssi_base::OutOfMemory;
use ssi_identities::{Cond, ModuleRow};
use ssi_terms::{ModuleEntry, Spot};
use std::alloc::Global;

/// Puts an item at a place. One past the last place is left out.
pub fn put<T: Drop>(items: &mut Vec<Option<T>>, place: u8, item: T)
    ensures { items.new.items ≡ slice_set items.old.items place (Some item) }
{
    let place = usize::from(place);
    if place < items.len() {
        items[place] = Some(item);
    }
}

/// The pins of a module that has so many of them.
fn pins_row(
    alloc: Global,
    text: &[u8],
    names: &NameSet,
    count: u8,
    entries: &[(Spot, Spot)],
) -> Result<Vec<Option<u16>>, OutOfMemory>
    requires small { length names.now < 65536 }
    requires few { count ≤ 8 }
    ensures { IfOk result (λ pins. pins.items ≡ spec.pins_row text.now names.now count entries.now) }
{
    let mut pins = vec![in alloc; None; usize::from(count)]?;
    for (name, pin) in entries {
        let identity = number(text, names, name);
        put(&mut pins, small_number(text, pin), identity);
    }
    Ok(pins)
}

/// No conditions for the bits that are sent to a module.
pub fn no_outputs(alloc: Global) -> Result<Vec<Option<Cond>>, OutOfMemory>
    ensures { IfOk result (λ outputs. outputs.items ≡ replicate 8 None) }
{
    let mut outputs = Vec::with_capacity(alloc, 8)?;
    for _ in 0..8_usize {
        outputs.push(None)?;
    }
    Ok(outputs)
}

impl RowOf<ModuleEntry> for ModuleRow {
    ghost row_of = { λ text names. module_row text names [] [] };

    ghost is_fit = { λ text entry. number_at text entry.address < 64 };

    fn row(
        alloc: Global,
        text: &[u8],
        tables: &Tables,
        entry: &ModuleEntry,
    ) -> Result<ModuleRow, OutOfMemory> {
        let kind = module_kind(characters(text, &entry.kind));
        let (identities, count) = pins_by_kind(kind);
        let names = table(tables, identities);
        Ok(ModuleRow {
            address: small_number(text, &entry.address),
            kind,
            pins: pins_row(alloc, text, names, count, entry.pins.as_slice())?,
            outputs: no_outputs(alloc)?,
            input: None,
        })
    }
}
