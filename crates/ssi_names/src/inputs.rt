//! IPT.

ghost use Rattle.std.specs.Prelude.{◌≡◌, ◌++◌, [], map, IfOk, OnOk};
ghost use Rattle.ssi_identities.specs.declared.rule.Body.{Body as Bodies};
ghost use Rattle.ssi_names.specs.Faults as spec;
ghost use Rattle.ssi_names.specs.NameLists.{set_of};
ghost use Rattle.ssi_names.specs.Occurrences.{in_order};
ghost use Rattle.ssi_names.specs.Scopes.{AreLimited, body_row, known};
ghost use Rattle.ssi_names.specs.Tables.{table_of};
ghost use Rattle.ssi_names.specs.Texts.{characters as characters_of};

use crate::addresses::address;
use crate::bodies::body;
use crate::fault::Fault;
use crate::judge::{RuleJudge, judge_rules};
use crate::name_set::NameSet;
use crate::rule_file::RuleFile;
use crate::scope::Scope;
use ssi_base::OutOfMemory;
use ssi_identities::Body;
use ssi_terms::{BodyTree, Spot};
use std::alloc::Global;

/// Judges what reports of modules do. The addresses of earlier entries were seen.
#[derive(Drop)]
struct InputJudge {
    seen: NameSet,
}

impl RuleJudge<(Spot, BodyTree)> for InputJudge {
    type Row = Body;

    ghost Value = { Bodies };

    ghost seen_as = { λ row. row };

    ghost faults_of = { λ scope. spec.input_faults (known scope) };

    ghost row_of = { λ scope entry. body_row scope entry.1 };

    ghost is_fit = { λ entry. Unit {0} };

    ghost is_after = { λ j scope earlier.
        j.seen ≡ set_of (map (λ other. characters_of scope.text.now other) (map (λ e. e.0) earlier)) };

    #[tactic(auto, using(std::proofs::lemmas::List::append_assoc))]
    fn rule(
        &mut self,
        alloc: Global,
        scope: &Scope<'_>,
        _earlier: &[(Spot, BodyTree)],
        entry: &(Spot, BodyTree),
        faults: &mut Vec<Fault>,
    ) -> Result<Body, OutOfMemory> {
        let scope = Scope {
            file: RuleFile::Inputs,
            ..*scope
        };
        address(alloc, &scope, &mut self.seen, &entry.0, faults)?;
        body(alloc, &scope, &entry.1, faults)
    }
}

/// The bodies of IPT, each as its entry has it. Notes its faults.
#[tactic(auto, using(crate::proofs::Lists::seen_as_itself))]
pub fn inputs(
    alloc: Global,
    scope: &Scope<'_>,
    entries: &[(Spot, BodyTree)],
    faults: &mut Vec<Fault>,
) -> Result<Vec<Body>, OutOfMemory>
    requires limited { AreLimited scope.now.counts (table_of scope.now.tables.now) }
    ensures faults { OnOk result (faults.new.items ≡ faults.old.items
        ++ in_order (spec.input_faults (known scope.now)) [] entries.now) }
    ensures rows { IfOk result (λ rows. rows.items ≡ map (λ entry. body_row scope.now entry.1) entries.now) }
{
    let seen = NameSet::new(alloc);
    judge_rules(alloc, scope, &mut InputJudge { seen }, entries, faults)
}
