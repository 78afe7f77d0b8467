//! Conditions: each name is declared, each word is a test of its kind, and both become a number.

ghost use Rattle.std.specs.Prelude.{◌≡◌, ◌∷◌, ◌++◌, [], map, position, IfOk, IfSome, OnOk};
ghost use Rattle.std.specs.Str.{bytes_eq};
ghost use Rattle.ssi_identities.specs.Facts.{identity_of};
ghost use Rattle.ssi_names.specs.Occurrences.{one_by_one};
ghost use Rattle.ssi_names.specs.Scopes as spec;
ghost use Rattle.ssi_names.specs.Scopes.{AreLimited};
ghost use Rattle.ssi_names.specs.Tables.{table_of};
ghost use Rattle.ssi_names.specs.Words.{kind_of};

use crate::code::{BAD_PIN, FREE_TEST_IN_PFM, NO_PFM, NOT_IN_THIS_FILE, UNKNOWN, WRONG_WORD};
use crate::fault::{Fault, note};
use crate::scope::{Scope, UsedName, fact_said, look_up, number_of};
use crate::tables::lacks_rule;
use crate::text::{characters, small_number};
use crate::words::{fact_by_word, is_of_inputs, is_of_moves, lie_by_word};
use sqlite_items::Items;
use ssi_base::OutOfMemory;
use ssi_identities::limits::BITS;
use ssi_identities::{Cond, CondItem, FactKind};
use ssi_terms::{CondTree, ItemTree, Spot};
use std::alloc::Global;

/// The test of a name: points are controlled to a lie or free to go to it, or a fact has a value.
fn test_by(
    scope: &Scope<'_>,
    used: &UsedName<'_>,
    said: Option<(FactKind, bool)>,
    lie: Option<bool>,
) -> CondItem
    requires limited { AreLimited scope.now.counts (table_of scope.now.tables.now) }
    requires kind { used.now.kind ≡ kind_of used.now.name.now }
    requires place { used.now.place ≡ position (bytes_eq used.now.name.now) (table_of scope.now.tables.now used.now.kind) }
    requires own { IfSome said (λ s. identity_of s.0 ≡ used.now.kind) }
    ensures { result ≡ spec.test_by scope.now used.now.name.now (spec.said_of scope.now used.now.name.now said) lie }
{
    match lie {
        Some(reverse) => CondItem::Free {
            points: number_of(scope, used),
            reverse,
        },
        None => {
            let (fact, wanted) = fact_said(scope, used, said);
            CondItem::Lit { fact, wanted }
        }
    }
}

/// The test of a name by a word. Notes its faults.
#[tactic(auto, using(std::proofs::lemmas::List::append_assoc))]
fn test(
    scope: &Scope<'_>,
    name: &Spot,
    word: &Spot,
    faults: &mut Vec<Fault>,
) -> Result<CondItem, OutOfMemory>
    requires { AreLimited scope.now.counts (table_of scope.now.tables.now) }
    ensures faults { OnOk result (faults.new.items ≡ faults.old.items ++ spec.test_faults scope.now name.now word.now) }
    ensures row { IfOk result (λ row. row ≡ spec.test_row scope.now name.now word.now) }
{
    let used = look_up(scope, name);
    let letters = characters(scope.text, word);
    let said = fact_by_word(used.kind, letters);
    let lie = lie_by_word(used.kind, letters);
    let unknown = used.place.is_none();
    let wrong = said.is_none() && lie.is_none();
    let free_in_moves = is_of_moves(scope.file) && lie.is_some();
    let unruled = !unknown && lacks_rule(scope.tables, used.name, lie);
    note(faults, name, &[(unknown, UNKNOWN)])?;
    note(
        faults,
        word,
        &[
            (wrong, WRONG_WORD),
            (free_in_moves, FREE_TEST_IN_PFM),
            (unruled, NO_PFM),
        ],
    )?;
    Ok(test_by(scope, &used, said, lie))
}

/// The test of a bit of a report by `h` or `l`. Notes its fault.
fn bit(
    scope: &Scope<'_>,
    number: &Spot,
    word: &Spot,
    faults: &mut Vec<Fault>,
) -> Result<CondItem, OutOfMemory>
    ensures faults { OnOk result (faults.new.items ≡ faults.old.items ++ spec.bit_faults scope.now number.now) }
    ensures row { IfOk result (λ row. row ≡ spec.bit_row scope.now number.now word.now) }
{
    let bit = small_number(scope.text, number);
    let elsewhere = !is_of_inputs(scope.file);
    let past = bit >= BITS;
    note(
        faults,
        number,
        &[(elsewhere, NOT_IN_THIS_FILE), (past, BAD_PIN)],
    )?;
    Ok(CondItem::Bit {
        bit: bit.min(BITS),
        wanted: characters(scope.text, word) == b"h".as_slice(),
    })
}

/// Adds the item of a tree to a condition. Notes its faults.
#[cycle(cond)]
fn add_item(
    alloc: Global,
    scope: &Scope<'_>,
    tree: &ItemTree,
    items: &mut Items<CondItem>,
    faults: &mut Vec<Fault>,
) -> Result<(), OutOfMemory>
    requires { AreLimited scope.now.counts (table_of scope.now.tables.now) }
    ensures faults { OnOk result (faults.new.items ≡ faults.old.items ++ spec.item_faults scope.now tree.now) }
    ensures row { OnOk result (items.new ≡ items.old ++ spec.item_row scope.now tree.now ∷ []) }
{
    match tree {
        ItemTree::Test { name, word } => items.push(test(scope, name, word, faults)?)?,
        ItemTree::Bit { number, word } => items.push(bit(scope, number, word, faults)?)?,
        ItemTree::Any(conds) => {
            let alternatives = group(alloc, scope, conds.as_slice(), faults)?;
            items.push(CondItem::Any(alternatives))?;
        }
    }
    Ok(())
}

#[cycle(cond)]
fn group(
    alloc: Global,
    scope: &Scope<'_>,
    conds: &[CondTree],
    faults: &mut Vec<Fault>,
) -> Result<Items<Cond>, OutOfMemory>
    requires { AreLimited scope.now.counts (table_of scope.now.tables.now) }
    ensures faults { OnOk result (faults.new.items ≡ faults.old.items ++ one_by_one (map (spec.cond_faults scope.now) conds.now)) }
    ensures rows { IfOk result (λ rows. rows ≡ map (spec.cond_row scope.now) conds.now) }
{
    let mut rows = Items::from_vec(Vec::with_capacity(alloc, conds.len())?);
    for tree in conds {
        rows.push(cond(alloc, scope, tree, faults)?)?;
    }
    Ok(rows)
}

/// The condition of a tree. Notes its faults.
#[cycle(cond)]
pub fn cond(
    alloc: Global,
    scope: &Scope<'_>,
    tree: &CondTree,
    faults: &mut Vec<Fault>,
) -> Result<Cond, OutOfMemory>
    requires { AreLimited scope.now.counts (table_of scope.now.tables.now) }
    ensures faults { OnOk result (faults.new.items ≡ faults.old.items ++ spec.cond_faults scope.now tree.now) }
    ensures row { IfOk result (λ row. row ≡ spec.cond_row scope.now tree.now) }
{
    let mut items = Items::from_vec(Vec::with_capacity(alloc, tree.items.len())?);
    for part in tree.items.as_slice() {
        add_item(alloc, scope, part, &mut items, faults)?;
    }
    Ok(Cond { items })
}
