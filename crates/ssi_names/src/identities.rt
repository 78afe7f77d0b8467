//! PTS, SIG, TCS, RTE, SUB and FLG: entries that declare a name each.

ghost use Rattle.std.specs.Prelude.{◌≡◌, ◌++◌, [], true, not, ◌||◌, map, OnOk};
ghost use Rattle.ssi_names.specs.Faults as spec;
ghost use Rattle.ssi_names.specs.NameLists.{set_of};
ghost use Rattle.ssi_names.specs.Occurrences.{in_order};
ghost use Rattle.ssi_names.specs.Tables.{asked_of, known_by};
ghost use Rattle.ssi_names.specs.Texts.{characters as characters_of};

use crate::code::{NOT_WIRED, TOO_MANY, TWICE};
use crate::declaration::Declaration;
use crate::fault::{Fault, note};
use crate::judge::{Judge, judge_all};
use crate::limits::Quota;
use crate::name_set::NameSet;
use crate::tables::Tables;
use crate::text::characters;
use ssi_base::OutOfMemory;
use ssi_terms::Spot;
use std::alloc::Global;

/// Judges the entries of a file.
#[derive(Drop)]
struct DeclarationJudge<'a> {
    text: &'a [u8],
    tables: &'a Tables,
    quota: Quota,
    seen: NameSet,
}

impl<'a, X: Declaration> Judge<X> for DeclarationJudge<'a> {
    ghost faults_of = { λ j earlier entry.
        spec.wired_name_faults (asked_of j.quota.wired (known_by j.text.now j.tables.now)) X.Named.name_of j.quota.most earlier entry
        ++ X.others (known_by j.text.now j.tables.now) entry };

    ghost is_after = { λ j earlier.
        j.seen ≡ set_of (map (λ e. characters_of j.text.now (X.Named.name_of e)) earlier) };

    #[tactic(auto, using(crate::proofs::Sets::in_set, std::proofs::lemmas::List::append_assoc))]
    fn judge(
        &mut self,
        alloc: Global,
        earlier: &[X],
        entry: &X,
        faults: &mut Vec<Fault>,
    ) -> Result<(), OutOfMemory> {
        let spot = entry.name();
        let name = characters(self.text, &spot);
        let again = self.seen.add(alloc, name)?;
        let many = earlier.len() >= self.quota.most;
        let unwired = self.quota.wired && !self.tables.wired.contains(name);
        note(
            faults,
            &spot,
            &[(again, TWICE), (many, TOO_MANY), (unwired, NOT_WIRED)],
        )?;
        entry.judge_others(alloc, self.text, self.tables, faults)
    }
}

/// Notes the faults of a file.
pub fn declarations<X: Declaration>(
    alloc: Global,
    text: &[u8],
    tables: &Tables,
    quota: Quota,
    entries: &[X],
    faults: &mut Vec<Fault>,
) -> Result<(), OutOfMemory>
    ensures { OnOk result (faults.new.items ≡ faults.old.items ++ in_order (λ earlier entry.
        spec.wired_name_faults (asked_of quota.wired (known_by text.now tables.now)) X.Named.name_of quota.most earlier entry
        ++ X.others (known_by text.now tables.now) entry) [] entries.now) }
{
    let mut judge = DeclarationJudge {
        text,
        tables,
        quota,
        seen: NameSet::new(alloc),
    };
    judge_all(alloc, &mut judge, entries, faults)
}

/// Notes the faults of a file of names alone.
pub fn names(
    alloc: Global,
    text: &[u8],
    tables: &Tables,
    quota: Quota,
    entries: &[Spot],
    faults: &mut Vec<Fault>,
) -> Result<(), OutOfMemory>
    ensures { OnOk result (faults.new.items ≡ faults.old.items ++ in_order
        (spec.wired_name_faults (asked_of quota.wired (known_by text.now tables.now)) (λ e. e) quota.most) [] entries.now) }
{
    declarations(alloc, text, tables, quota, entries, faults)
}
