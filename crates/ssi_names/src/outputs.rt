//! OPT.

ghost use Rattle.std.specs.Prelude.{◌≡◌, ◌++◌, [], List, Option, None, fold, map, replicate, IfOk, OnOk};
ghost use Rattle.ssi_identities.specs.declared.rule.Cond.{Cond as Conds};
ghost use Rattle.ssi_names.specs.declared.rule_file.RuleFile.TheVariants.{Outputs};
ghost use Rattle.ssi_names.specs.Faults as spec;
ghost use Rattle.ssi_names.specs.NameLists.{set_of};
ghost use Rattle.ssi_names.specs.Occurrences.{in_order};
ghost use Rattle.ssi_names.specs.Scopes.{AreLimited, known, outputs_row, with_output};
ghost use Rattle.ssi_names.specs.Tables.{table_of};
ghost use Rattle.ssi_names.specs.Texts.{characters as characters_of};

use crate::addresses::address;
use crate::conditions::cond;
use crate::fault::Fault;
use crate::judge::{RuleJudge, judge_rules};
use crate::module_rows::{no_outputs, put};
use crate::modules::{PINS, pin_number};
use crate::name_set::NameSet;
use crate::rule_file::RuleFile;
use crate::scope::Scope;
use crate::text::small_number;
use ssi_base::OutOfMemory;
use ssi_identities::Cond;
use ssi_opt::OutputEntry;
use ssi_terms::{CondTree, Spot};
use std::alloc::Global;

/// The conditions of the bits that are sent to a module. Notes their faults.
fn bits(
    alloc: Global,
    scope: &Scope<'_>,
    entries: &[(Spot, CondTree)],
    faults: &mut Vec<Fault>,
) -> Result<Vec<Option<Cond>>, OutOfMemory>
    requires limited { AreLimited scope.now.counts (table_of scope.now.tables.now) }
    requires file { scope.now.file ≡ Outputs }
    ensures faults { OnOk result (faults.new.items ≡ faults.old.items
        ++ in_order (spec.output_bit_faults (known scope.now)) [] entries.now) }
    ensures row { IfOk result (λ row. row.items ≡ fold (with_output scope.now) (replicate 8 None) entries.now) }
{
    let mut row = no_outputs(alloc)?;
    let mut used = [false; PINS];
    for (number, tree) in entries {
        pin_number(scope.text, 8, &mut used, number, faults)?;
        let cond = cond(alloc, scope, tree, faults)?;
        put(&mut row, small_number(scope.text, number), cond);
    }
    Ok(row)
}

/// Judges what is sent to modules. The addresses of earlier entries were seen.
#[derive(Drop)]
struct OutputJudge {
    seen: NameSet,
}

impl RuleJudge<OutputEntry> for OutputJudge {
    type Row = Vec<Option<Cond>>;

    ghost Value = { List (Option Conds) };

    ghost seen_as = { λ row. row.items };

    ghost faults_of = { λ scope. spec.output_faults (known scope) };

    ghost row_of = { outputs_row };

    ghost is_fit = { λ entry. Unit {0} };

    ghost is_after = { λ j scope earlier.
        j.seen ≡ set_of (map (λ other. characters_of scope.text.now other) (map (λ e. e.address) earlier)) };

    #[tactic(auto, using(std::proofs::lemmas::List::append_assoc))]
    fn rule(
        &mut self,
        alloc: Global,
        scope: &Scope<'_>,
        _earlier: &[OutputEntry],
        entry: &OutputEntry,
        faults: &mut Vec<Fault>,
    ) -> Result<Vec<Option<Cond>>, OutOfMemory> {
        let scope = Scope {
            file: RuleFile::Outputs,
            ..*scope
        };
        address(alloc, &scope, &mut self.seen, &entry.address, faults)?;
        bits(alloc, &scope, entry.bits.as_slice(), faults)
    }
}

/// The rows of OPT, of eight bits each. Notes its faults.
pub fn outputs(
    alloc: Global,
    scope: &Scope<'_>,
    entries: &[OutputEntry],
    faults: &mut Vec<Fault>,
) -> Result<Vec<Vec<Option<Cond>>>, OutOfMemory>
    requires limited { AreLimited scope.now.counts (table_of scope.now.tables.now) }
    ensures faults { OnOk result (faults.new.items ≡ faults.old.items
        ++ in_order (spec.output_faults (known scope.now)) [] entries.now) }
    ensures rows { IfOk result (λ rows. map (λ row. row.items) rows.items ≡ map (outputs_row scope.now) entries.now) }
{
    let seen = NameSet::new(alloc);
    judge_rules(alloc, scope, &mut OutputJudge { seen }, entries, faults)
}
