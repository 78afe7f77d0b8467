//! Names that an entry has behind its own: tracks under points, the signal and the sub-routes of a route, the
//! track and the points of a sub-route.

ghost use Rattle.std.specs.Prelude.{◌≡◌, ◌++◌, [], map, OnOk};
ghost use Rattle.ssi_names.specs.Faults as spec;
ghost use Rattle.ssi_names.specs.NameLists.{set_of};
ghost use Rattle.ssi_names.specs.Occurrences.{in_order};
ghost use Rattle.ssi_names.specs.Tables.{known_by};
ghost use Rattle.ssi_names.specs.Texts.{characters as characters_of};

use crate::code::{POINTS_TWICE_IN_SUBROUTE, TOO_MANY, UNKNOWN};
use crate::fault::{Fault, note};
use crate::judge::{Judge, judge_all};
use crate::name_set::NameSet;
use crate::tables::{Tables, is_known};
use crate::text::characters;
use ssi_base::OutOfMemory;
use ssi_identities::Kind;
use ssi_identities::limits::MOST_POINTS_OF_SUB;
use ssi_terms::Spot;
use std::alloc::Global;

/// Notes the fault of a name that an entry refers to.
pub fn reference(
    text: &[u8],
    tables: &Tables,
    kind: Kind,
    name: &Spot,
    faults: &mut Vec<Fault>,
) -> Result<(), OutOfMemory>
    ensures { OnOk result (faults.new.items ≡ faults.old.items
        ++ spec.reference_faults (known_by text.now tables.now) kind name.now) }
{
    let unknown = !is_known(tables, kind, characters(text, name));
    note(faults, name, &[(unknown, UNKNOWN)])
}

/// Judges the names of one kind in an entry, of which a limit says how many there may be.
#[derive(Drop)]
struct MemberJudge<'a> {
    text: &'a [u8],
    tables: &'a Tables,
    kind: Kind,
    limit: usize,
}

impl<'a> Judge<Spot> for MemberJudge<'a> {
    ghost faults_of = { λ j. spec.member_faults (known_by j.text.now j.tables.now) j.kind j.limit };

    ghost is_after = { λ j earlier. Unit {0} };

    fn judge(
        &mut self,
        _alloc: Global,
        earlier: &[Spot],
        entry: &Spot,
        faults: &mut Vec<Fault>,
    ) -> Result<(), OutOfMemory> {
        let unknown = !is_known(self.tables, self.kind, characters(self.text, entry));
        let many = earlier.len() >= self.limit;
        note(faults, entry, &[(unknown, UNKNOWN), (many, TOO_MANY)])
    }
}

/// Notes the faults of the names of one kind in an entry.
pub fn members(
    alloc: Global,
    text: &[u8],
    tables: &Tables,
    kind: Kind,
    limit: usize,
    names: &[Spot],
    faults: &mut Vec<Fault>,
) -> Result<(), OutOfMemory>
    ensures { OnOk result (faults.new.items ≡ faults.old.items
        ++ in_order (spec.member_faults (known_by text.now tables.now) kind limit) [] names.now) }
{
    let mut judge = MemberJudge {
        text,
        tables,
        kind,
        limit,
    };
    judge_all(alloc, &mut judge, names, faults)
}

/// Judges the points of a sub-route.
#[derive(Drop)]
struct LieJudge<'a> {
    text: &'a [u8],
    tables: &'a Tables,
    seen: NameSet,
}

impl<'a> Judge<(Spot, Spot)> for LieJudge<'a> {
    ghost faults_of = { λ j. spec.lie_faults (known_by j.text.now j.tables.now) };

    ghost is_after = { λ j earlier.
        j.seen ≡ set_of (map (λ e. characters_of j.text.now e.0) earlier) };

    #[tactic(auto, using(crate::proofs::Sets::in_set))]
    fn judge(
        &mut self,
        alloc: Global,
        earlier: &[(Spot, Spot)],
        entry: &(Spot, Spot),
        faults: &mut Vec<Fault>,
    ) -> Result<(), OutOfMemory> {
        let name = characters(self.text, &entry.0);
        let unknown = !self.tables.points.contains(name);
        let again = self.seen.add(alloc, name)?;
        let many = earlier.len() >= MOST_POINTS_OF_SUB;
        note(
            faults,
            &entry.0,
            &[
                (unknown, UNKNOWN),
                (again, POINTS_TWICE_IN_SUBROUTE),
                (many, TOO_MANY),
            ],
        )
    }
}

/// Notes the faults of the points of a sub-route.
pub fn lies(
    alloc: Global,
    text: &[u8],
    tables: &Tables,
    entries: &[(Spot, Spot)],
    faults: &mut Vec<Fault>,
) -> Result<(), OutOfMemory>
    ensures { OnOk result (faults.new.items ≡ faults.old.items
        ++ in_order (spec.lie_faults (known_by text.now tables.now)) [] entries.now) }
{
    let seen = NameSet::new(alloc);
    judge_all(alloc, &mut LieJudge { text, tables, seen }, entries, faults)
}
