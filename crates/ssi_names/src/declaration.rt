//! An entry that declares a name, and the names that it has behind it.

ghost use Rattle.std.specs.Prelude.{◌≡◌, ◌++◌, [], List, OnOk};
ghost use Rattle.ssi_identities.specs.declared.fact.Kind.TheVariants.{Signal, Track, Subroute};
ghost use Rattle.ssi_names.specs.declared.fault.Fault.{Fault as Found};
ghost use Rattle.ssi_names.specs.Declarations.{Declared};
ghost use Rattle.ssi_names.specs.Faults as spec;
ghost use Rattle.ssi_names.specs.Occurrences.{in_order};
ghost use Rattle.ssi_names.specs.Tables.{known_by};

use crate::fault::Fault;
use crate::members::{lies, members, reference};
use crate::named::Named;
use crate::tables::Tables;
use ssi_base::OutOfMemory;
use ssi_identities::Kind;
use ssi_identities::limits::{MOST_SUBS_OF_ROUTE, MOST_TRACKS_OF_POINTS};
use ssi_terms::{PointsEntry, RouteEntry, Spot, SubEntry};
use std::alloc::Global;

/// An entry that declares a name, and may have others behind it.
pub trait Declaration: Named {
    ghost others: { Declared → Self → List Found };

    /// Notes the faults of the names behind the one that is declared.
    fn judge_others(
        &self,
        alloc: Global,
        text: &[u8],
        tables: &Tables,
        faults: &mut Vec<Fault>,
    ) -> Result<(), OutOfMemory>
        ensures { OnOk result (faults.new.items ≡ faults.old.items ++ others (known_by text.now tables.now) self.now) };
}

impl Declaration for Spot {
    ghost others = { λ known entry. [] };

    fn judge_others(
        &self,
        _alloc: Global,
        _text: &[u8],
        _tables: &Tables,
        _faults: &mut Vec<Fault>,
    ) -> Result<(), OutOfMemory> {
        Ok(())
    }
}

impl Declaration for PointsEntry {
    ghost others = { λ known entry. in_order (spec.member_faults known Track 4) [] entry.tracks };

    fn judge_others(
        &self,
        alloc: Global,
        text: &[u8],
        tables: &Tables,
        faults: &mut Vec<Fault>,
    ) -> Result<(), OutOfMemory> {
        let (kind, limit) = (Kind::Track, MOST_TRACKS_OF_POINTS);
        let tracks = self.tracks.as_slice();
        members(alloc, text, tables, kind, limit, tracks, faults)
    }
}

impl Declaration for RouteEntry {
    ghost others = { λ known entry.
        spec.reference_faults known Signal entry.signal ++ in_order (spec.member_faults known Subroute 32) [] entry.subs };

    #[tactic(auto, using(std::proofs::lemmas::List::append_assoc))]
    fn judge_others(
        &self,
        alloc: Global,
        text: &[u8],
        tables: &Tables,
        faults: &mut Vec<Fault>,
    ) -> Result<(), OutOfMemory> {
        reference(text, tables, Kind::Signal, &self.signal, faults)?;
        let (kind, limit) = (Kind::Subroute, MOST_SUBS_OF_ROUTE);
        let subs = self.subs.as_slice();
        members(alloc, text, tables, kind, limit, subs, faults)
    }
}

impl Declaration for SubEntry {
    ghost others = { λ known entry.
        spec.reference_faults known Track entry.track ++ in_order (spec.lie_faults known) [] entry.lies };

    #[tactic(auto, using(std::proofs::lemmas::List::append_assoc))]
    fn judge_others(
        &self,
        alloc: Global,
        text: &[u8],
        tables: &Tables,
        faults: &mut Vec<Fault>,
    ) -> Result<(), OutOfMemory> {
        reference(text, tables, Kind::Track, &self.track, faults)?;
        lies(alloc, text, tables, self.lies.as_slice(), faults)
    }
}
