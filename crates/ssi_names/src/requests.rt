//! PRR.

ghost use Rattle.std.specs.Prelude.{◌≡◌, ◌++◌, ◌≤◌, [], map, All, IfOk, OnOk};
ghost use Rattle.ssi_identities.specs.declared.data_set.RequestRow.{RequestRow as Rows};
ghost use Rattle.ssi_names.specs.Faults as spec;
ghost use Rattle.ssi_names.specs.NameLists.{set_of};
ghost use Rattle.ssi_names.specs.Occurrences.{in_order};
ghost use Rattle.ssi_names.specs.Scopes.{AreLimited, known, request_row};
ghost use Rattle.ssi_names.specs.Tables.{table_of};
ghost use Rattle.ssi_names.specs.Texts.{characters as characters_of};

use crate::bodies::body;
use crate::code::{BLOCK_TWICE, TOO_MANY};
use crate::fault::{Fault, note};
use crate::judge::{RuleJudge, judge_rules};
use crate::name_set::NameSet;
use crate::rule_file::RuleFile;
use crate::scope::Scope;
use crate::text::characters;
use ssi_base::OutOfMemory;
use ssi_identities::limits::MOST_REQUESTS;
use ssi_identities::{Name, RequestRow};
use ssi_terms::{BodyTree, Spot};
use std::alloc::Global;

/// Judges requests. The names of earlier ones were seen.
#[derive(Drop)]
struct RequestJudge {
    seen: NameSet,
}

impl RuleJudge<(Spot, BodyTree)> for RequestJudge {
    type Row = RequestRow;

    ghost Value = { Rows };

    ghost seen_as = { λ row. row };

    ghost faults_of = { λ scope. spec.request_faults (known scope) };

    ghost row_of = { request_row };

    ghost is_fit = { λ entry. entry.0.len ≤ 16 };

    ghost is_after = { λ j scope earlier. j.seen ≡ set_of (map (λ e. characters_of scope.text.now e.0) earlier) };

    #[tactic(auto, using(crate::proofs::Sets::in_set, std::proofs::lemmas::List::append_assoc))]
    fn rule(
        &mut self,
        alloc: Global,
        scope: &Scope<'_>,
        earlier: &[(Spot, BodyTree)],
        entry: &(Spot, BodyTree),
        faults: &mut Vec<Fault>,
    ) -> Result<RequestRow, OutOfMemory> {
        let scope = Scope {
            file: RuleFile::Requests,
            ..*scope
        };
        let name = characters(scope.text, &entry.0);
        let again = self.seen.add(alloc, name)?;
        let many = earlier.len() >= MOST_REQUESTS;
        note(faults, &entry.0, &[(again, BLOCK_TWICE), (many, TOO_MANY)])?;
        let body = body(alloc, &scope, &entry.1, faults)?;
        let name = Name::new(name);
        Ok(RequestRow { name, body })
    }
}

/// The rows of PRR. Notes its faults.
#[tactic(auto, using(crate::proofs::Lists::seen_as_itself))]
pub fn requests(
    alloc: Global,
    scope: &Scope<'_>,
    entries: &[(Spot, BodyTree)],
    faults: &mut Vec<Fault>,
) -> Result<Vec<RequestRow>, OutOfMemory>
    requires limited { AreLimited scope.now.counts (table_of scope.now.tables.now) }
    requires short { All (λ entry. entry.0.len ≤ 16) entries.now }
    ensures faults { OnOk result (faults.new.items ≡ faults.old.items
        ++ in_order (spec.request_faults (known scope.now)) [] entries.now) }
    ensures rows { IfOk result (λ rows. rows.items ≡ map (request_row scope.now) entries.now) }
{
    let seen = NameSet::new(alloc);
    judge_rules(alloc, scope, &mut RequestJudge { seen }, entries, faults)
}
