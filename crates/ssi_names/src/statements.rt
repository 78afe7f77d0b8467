//! FOP.

ghost use Rattle.std.specs.Prelude.{◌≡◌, ◌++◌, [], map, IfOk, OnOk};
ghost use Rattle.ssi_identities.specs.DataSets.{StmtPlan};
ghost use Rattle.ssi_names.specs.Faults as spec;
ghost use Rattle.ssi_names.specs.Occurrences.{in_order};
ghost use Rattle.ssi_names.specs.Scopes.{AreLimited, known, statement_row};
ghost use Rattle.ssi_names.specs.Tables.{table_of};

use crate::bodies::commands;
use crate::conditions::cond;
use crate::fault::Fault;
use crate::judge::{RuleJudge, judge_rules};
use crate::rule_file::RuleFile;
use crate::scope::Scope;
use ssi_base::OutOfMemory;
use ssi_fop::StatementEntry;
use ssi_identities::Stmt;
use ssi_identities::limits::MOST_STATEMENTS;
use std::alloc::Global;

/// Judges statements.
#[derive(Drop)]
struct StatementJudge;

impl RuleJudge<StatementEntry> for StatementJudge {
    type Row = Stmt;

    ghost Value = { StmtPlan };

    ghost seen_as = { λ row. row };

    ghost faults_of = { λ scope. spec.statement_faults (known scope) };

    ghost row_of = { statement_row };

    ghost is_fit = { λ entry. Unit {0} };

    ghost is_after = { λ j scope earlier. Unit {0} };

    #[tactic(auto, using(std::proofs::lemmas::List::append_assoc))]
    fn rule(
        &mut self,
        alloc: Global,
        scope: &Scope<'_>,
        earlier: &[StatementEntry],
        entry: &StatementEntry,
        faults: &mut Vec<Fault>,
    ) -> Result<Stmt, OutOfMemory> {
        let scope = Scope {
            file: RuleFile::Statements,
            ..*scope
        };
        let many = earlier.len() >= MOST_STATEMENTS;
        let commands = commands(alloc, &scope, many, entry.commands.as_slice(), faults)?;
        let guard = cond(alloc, &scope, &entry.guard, faults)?;
        Ok(Stmt { commands, guard })
    }
}

/// The rows of FOP. Notes its faults.
#[tactic(auto, using(crate::proofs::Lists::seen_as_itself))]
pub fn statements(
    alloc: Global,
    scope: &Scope<'_>,
    entries: &[StatementEntry],
    faults: &mut Vec<Fault>,
) -> Result<Vec<Stmt>, OutOfMemory>
    requires limited { AreLimited scope.now.counts (table_of scope.now.tables.now) }
    ensures faults { OnOk result (faults.new.items ≡ faults.old.items
        ++ in_order (spec.statement_faults (known scope.now)) [] entries.now) }
    ensures rows { IfOk result (λ rows. rows.items ≡ map (statement_row scope.now) entries.now) }
{
    judge_rules(alloc, scope, &mut StatementJudge, entries, faults)
}
