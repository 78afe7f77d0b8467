//! PFM.

ghost use Rattle.std.specs.Prelude.{◌≡◌, ◌++◌, [], false, true, map, IfOk, OnOk};
ghost use Rattle.ssi_identities.specs.declared.rule.Cond.{Cond as Conds};
ghost use Rattle.ssi_names.specs.Declarations.{points_with_rules};
ghost use Rattle.ssi_names.specs.Faults as spec;
ghost use Rattle.ssi_names.specs.NameLists.{set_of};
ghost use Rattle.ssi_names.specs.Occurrences.{in_order};
ghost use Rattle.ssi_names.specs.Scopes.{AreLimited, cond_row, known};
ghost use Rattle.ssi_names.specs.Tables.{table_of};

use crate::code::{BLOCK_TWICE, UNKNOWN};
use crate::conditions::cond;
use crate::fault::{Fault, note};
use crate::judge::{RuleJudge, judge_rules};
use crate::name_set::NameSet;
use crate::rule_file::RuleFile;
use crate::scope::Scope;
use crate::text::{characters, is_reverse};
use ssi_base::OutOfMemory;
use ssi_identities::Cond;
use ssi_terms::{CondTree, Spot};
use std::alloc::Global;

/// Judges rules that say when points are free to move. The points of earlier ones were seen, for each lie.
#[derive(Drop)]
struct MoveJudge {
    normal: NameSet,
    reverse: NameSet,
}

impl RuleJudge<(Spot, Spot, CondTree)> for MoveJudge {
    type Row = Cond;

    ghost Value = { Conds };

    ghost seen_as = { λ row. row };

    ghost faults_of = { λ scope. spec.move_faults (known scope) };

    ghost row_of = { λ scope entry. cond_row scope entry.2 };

    ghost is_fit = { λ entry. Unit {0} };

    ghost is_after = { λ j scope earlier.
        (j.normal ≡ set_of (points_with_rules scope.text.now earlier false))
        × (j.reverse ≡ set_of (points_with_rules scope.text.now earlier true)) };

    #[tactic(auto, using(crate::proofs::Sets::in_set, std::proofs::lemmas::List::append_assoc))]
    fn rule(
        &mut self,
        alloc: Global,
        scope: &Scope<'_>,
        _earlier: &[(Spot, Spot, CondTree)],
        entry: &(Spot, Spot, CondTree),
        faults: &mut Vec<Fault>,
    ) -> Result<Cond, OutOfMemory> {
        let (points, lie, condition) = entry;
        let scope = Scope {
            file: RuleFile::Moves,
            ..*scope
        };
        let name = characters(scope.text, points);
        let unknown = !scope.tables.points.contains(name);
        let again = if is_reverse(scope.text, lie) {
            self.reverse.add(alloc, name)?
        } else {
            self.normal.add(alloc, name)?
        };
        note(faults, points, &[(unknown, UNKNOWN), (again, BLOCK_TWICE)])?;
        cond(alloc, &scope, condition, faults)
    }
}

/// The conditions of PFM, each as its entry has it. Notes its faults.
#[tactic(auto, using(crate::proofs::Lists::seen_as_itself))]
pub fn moves(
    alloc: Global,
    scope: &Scope<'_>,
    entries: &[(Spot, Spot, CondTree)],
    faults: &mut Vec<Fault>,
) -> Result<Vec<Cond>, OutOfMemory>
    requires limited { AreLimited scope.now.counts (table_of scope.now.tables.now) }
    ensures faults { OnOk result (faults.new.items ≡ faults.old.items
        ++ in_order (spec.move_faults (known scope.now)) [] entries.now) }
    ensures rows { IfOk result (λ rows. rows.items ≡ map (λ entry. cond_row scope.now entry.2) entries.now) }
{
    let normal = NameSet::new(alloc);
    let reverse = NameSet::new(alloc);
    judge_rules(
        alloc,
        scope,
        &mut MoveJudge { normal, reverse },
        entries,
        faults,
    )
}
