//! Bodies: each name is declared, each word is a test or a command that the file may have, and both become a number.

ghost use Rattle.std.specs.Prelude.{◌≡◌, ◌∷◌, ◌++◌, [], map, option_map, IfOk, OnOk};
ghost use Rattle.ssi_names.specs.Bodies.{else_faults};
ghost use Rattle.ssi_names.specs.Codes.{too_many};
ghost use Rattle.ssi_names.specs.Scopes as spec;
ghost use Rattle.ssi_names.specs.Scopes.{AreLimited};
ghost use Rattle.ssi_names.specs.Tables.{table_of};

use crate::code::{NOT_IN_THIS_FILE, TOO_MANY, UNKNOWN, WRONG_WORD};
use crate::conditions::cond;
use crate::fault::{Fault, note};
use crate::scope::{Scope, fact_said, look_up};
use crate::text::characters;
use crate::words::{fact_by_word, may_command};
use sqlite_items::Items;
use ssi_base::OutOfMemory;
use ssi_identities::{Body, BodyItem, Cmd};
use ssi_terms::{BodyTree, CommandTree, PartTree};
use std::alloc::Global;

/// The command of a tree, whose name may stand where there are too many already. Notes its faults.
#[tactic(auto, using(std::proofs::lemmas::List::append_assoc))]
#[inline(always)]
fn command(
    scope: &Scope<'_>,
    many: bool,
    tree: &CommandTree,
    faults: &mut Vec<Fault>,
) -> Result<Cmd, OutOfMemory>
    requires { AreLimited scope.now.counts (table_of scope.now.tables.now) }
    ensures faults { OnOk result (faults.new.items ≡ faults.old.items ++ spec.commands_faults scope.now ((many, too_many) ∷ []) (tree.now ∷ [])) }
    ensures row { IfOk result (λ row. row ≡ spec.command_row scope.now tree.now) }
{
    let used = look_up(scope, &tree.name);
    let said = fact_by_word(used.kind, characters(scope.text, &tree.word));
    let unknown = used.place.is_none();
    let wrong = said.is_none();
    let elsewhere = !may_command(scope.file, said);
    note(faults, &tree.name, &[(unknown, UNKNOWN), (many, TOO_MANY)])?;
    note(
        faults,
        &tree.word,
        &[(wrong, WRONG_WORD), (elsewhere, NOT_IN_THIS_FILE)],
    )?;
    let (fact, value) = fact_said(scope, &used, said);
    Ok(Cmd { fact, value })
}

/// The commands of trees, of which the first may stand where there are too many already. Notes their faults.
pub fn commands(
    alloc: Global,
    scope: &Scope<'_>,
    many: bool,
    trees: &[CommandTree],
    faults: &mut Vec<Fault>,
) -> Result<Vec<Cmd>, OutOfMemory>
    requires { AreLimited scope.now.counts (table_of scope.now.tables.now) }
    ensures faults { OnOk result (faults.new.items ≡ faults.old.items ++ spec.commands_faults scope.now ((many, too_many) ∷ []) trees.now) }
    ensures rows { IfOk result (λ rows. rows.items ≡ map (spec.command_row scope.now) trees.now) }
{
    let mut rows = Vec::with_capacity(alloc, trees.len())?;
    let mut past = many;
    for tree in trees {
        rows.push(command(scope, past, tree, faults)?)?;
        past = false;
    }
    Ok(rows)
}

/// The body of a tree. Notes its faults.
#[cycle(body)]
pub fn body(
    alloc: Global,
    scope: &Scope<'_>,
    tree: &BodyTree,
    faults: &mut Vec<Fault>,
) -> Result<Body, OutOfMemory>
    requires { AreLimited scope.now.counts (table_of scope.now.tables.now) }
    ensures faults { OnOk result (faults.new.items ≡ faults.old.items ++ spec.body_faults scope.now tree.now) }
    ensures row { IfOk result (λ row. row ≡ spec.body_row scope.now tree.now) }
{
    let mut items = Items::from_vec(Vec::with_capacity(alloc, tree.parts.len())?);
    for piece in tree.parts.as_slice() {
        add_part(alloc, scope, piece, &mut items, faults)?;
    }
    Ok(Body { items })
}

/// Adds the item of a tree to a body. Notes its faults. An item is large, and so it is made where it is to stand.
#[cycle(body)]
#[tactic(auto, using(std::proofs::lemmas::List::append_assoc))]
fn add_part(
    alloc: Global,
    scope: &Scope<'_>,
    tree: &PartTree,
    items: &mut Items<BodyItem>,
    faults: &mut Vec<Fault>,
) -> Result<(), OutOfMemory>
    requires { AreLimited scope.now.counts (table_of scope.now.tables.now) }
    ensures faults { OnOk result (faults.new.items ≡ faults.old.items ++ spec.part_faults scope.now tree.now) }
    ensures row { OnOk result (items.new ≡ items.old ++ spec.part_row scope.now tree.now ∷ []) }
{
    match tree {
        PartTree::Do(tree) => items.push(BodyItem::Do(command(scope, false, tree, faults)?))?,
        PartTree::If {
            guard,
            then_body,
            else_body,
        } => items.push(BodyItem::If {
            guard: cond(alloc, scope, guard, faults)?,
            then_body: body(alloc, scope, then_body, faults)?,
            else_body: otherwise(alloc, scope, else_body, faults)?,
        })?,
    }
    Ok(())
}

#[cycle(body)]
fn otherwise(
    alloc: Global,
    scope: &Scope<'_>,
    tree: &Option<BodyTree>,
    faults: &mut Vec<Fault>,
) -> Result<Option<Body>, OutOfMemory>
    requires { AreLimited scope.now.counts (table_of scope.now.tables.now) }
    ensures faults { OnOk result (faults.new.items ≡ faults.old.items ++ else_faults (option_map (spec.body_faults scope.now) tree.now)) }
    ensures row { IfOk result (λ row. row ≡ option_map (spec.body_row scope.now) tree.now) }
{
    match tree {
        Some(tree) => Ok(Some(body(alloc, scope, tree, faults)?)),
        None => Ok(None),
    }
}
