//! The data set of a text, or every fault of its names, words and numbers.

ghost use Rattle.std.specs.Prelude.{◌≡◌, ◌≤◌, ℕ, List, [], length};
ghost use Rattle.ssi_identities.specs.Wells.{IsWell};
ghost use Rattle.ssi_lexer.specs.Limits.{text_limit};
ghost use Rattle.ssi_names.specs.Answers.{IsAnswer};
ghost use Rattle.ssi_names.specs.Formed.{IsFormed};
ghost use Rattle.ssi_names.specs.Faults.{faults_of};
ghost use Rattle.ssi_names.specs.Spelled.{IsSpelledIn};
ghost use Rattle.ssi_names.specs.Rows.{resolved};
ghost use Rattle.ssi_names.specs.RuleRows.{AreRowsOf};
ghost use Rattle.ssi_names.specs.SourceTexts.{SourceText};
ghost use Rattle.ssi_names.specs.Tables.{AreTablesOf, table_of};

use crate::fault::{FaultList, ResolveFault};
use crate::faults::{Judged, judge_source};
use crate::rows::data_set;
use crate::rule_file::RuleFile;
use crate::scope::Scope;
use crate::source::SourceTree;
use crate::tables::{Tables, counts_within, tables_of};
use ssi_base::OutOfMemory;
use ssi_identities::DataSet;
use std::alloc::Global;

/// The data set of a text without faults.
fn accept(
    alloc: Global,
    text: &[u8],
    tables: &Tables,
    tree: &SourceTree,
    judged: Judged,
) -> Result<DataSet, ResolveFault>
    requires tables { AreTablesOf text.now tree.now tables.now }
    requires formed { IsFormed text.now tree.now }
    requires fine { faults_of text.now tree.now ≡ [] }
    requires rows { AreRowsOf text.now (table_of tables.now) tree.now judged }
    ensures { IsAnswer text.now tree.now result }
{
    match data_set(alloc, text, tables, tree, judged) {
        Ok(plan) => Ok(plan),
        Err(OutOfMemory) => Err(ResolveFault::Memory),
    }
}

/// The same by the tables of the tree.
fn resolve_by(
    alloc: Global,
    text: &[u8],
    tables: &Tables,
    tree: &SourceTree,
) -> Result<DataSet, ResolveFault>
    requires tables { AreTablesOf text.now tree.now tables.now }
    requires formed { IsFormed text.now tree.now }
    ensures { IsAnswer text.now tree.now result }
{
    let counts = counts_within(tables);
    let file = RuleFile::Requests;
    let scope = Scope {
        text,
        tables,
        counts,
        file,
    };
    let Ok(judged) = judge_source(alloc, &scope, tree) else {
        return Err(ResolveFault::Memory);
    };
    if judged.faults.is_empty() {
        accept(alloc, text, tables, tree, judged)
    } else {
        let items = judged.faults;
        Err(ResolveFault::Faults(FaultList { items }))
    }
}

/// The data set of a text with this tree, or every fault of its names, words and numbers in written order.
pub fn resolve(alloc: Global, text: &[u8], tree: &SourceTree) -> Result<DataSet, ResolveFault>
    requires spelled { IsSpelledIn text.now tree.now }
    requires short { length text.now ≤ text_limit }
    ensures { IsAnswer text.now tree.now result }
{
    match tables_of(alloc, text, tree) {
        Ok(tables) => resolve_by(alloc, text, &tables, tree),
        Err(OutOfMemory) => Err(ResolveFault::Memory),
    }
}

/// The data set of a text without faults is well, whether or not memory suffices to make it.
pub fn laws_of_resolving()
    ensures { (text : List ℕ) (tree : SourceText) → length text ≤ text_limit → IsSpelledIn text tree → faults_of text tree ≡ []
        → IsWell (resolved text tree) }
{}
