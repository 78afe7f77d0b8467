//! Whether a data set is well.

ghost use Rattle.std.specs.Prelude.{◌≡◌, ◌↔◌, ℕ, ◌<◌, ◌≤◌, length, All, IfSome, IsTrue};
ghost use Rattle.ssi_identities.specs.Allowed.{IsWellBody};
ghost use Rattle.ssi_identities.specs.DataSets.{counts_of};
ghost use Rattle.ssi_identities.specs.Deciding.{body_scope_of, cond_scope_of};
ghost use Rattle.ssi_identities.specs.Facts.{IsWithinLimits};
ghost use Rattle.ssi_identities.specs.Wells.{AreWellOutputs, HasWellLayout, HasWellMoves, HasWellRules, HasWellWiring, IsSmall, IsWell, IsWellPoints, IsWellRoute, IsWellStatement, IsWellSub, scope_of_conds, scope_of_decisions, scope_of_inputs, scope_of_moves};

use crate::data_set::{DataSet, PointsRow, RouteRow, Stmt, SubRow};
use crate::fact::Counts;
use crate::limits::{
    BITS, MOST_FLAGS, MOST_MODULES, MOST_POINTS, MOST_POINTS_OF_SUB, MOST_REQUESTS, MOST_ROUTES,
    MOST_SIGNALS, MOST_STATEMENTS, MOST_SUBS, MOST_SUBS_OF_ROUTE, MOST_TRACKS,
    MOST_TRACKS_OF_POINTS,
};
use crate::place::{BodyPlace, CondPlace};
use crate::rule::Cond;
use crate::well_bodies::{are_well_commands, is_well_body, is_well_body_where_given};
use crate::well_conditions::{is_well_cond, is_well_where_given};
use crate::well_modules::{are_all_wired_once, are_well_modules, do_addresses_differ};
use crate::well_names::has_well_names;
use crate::well_numbers::{are_below, do_numbers_differ};
use crate::well_places::{cond_place, decision_place, input_place, move_place};

impl DataSet {
    /// Whether the data set is well: it is within its limits, names are spelled as those of their kind and
    /// differ, numbers are those of what there is, each points, signal and track is wired once, and rules
    /// name only what their place allows. It takes no memory.
    pub fn is_well(&self) -> bool
        ensures { IsTrue result ↔ IsWell self.now }
    {
        if !is_small(self) {
            return false;
        }
        has_well_names(self)
            && has_well_layout(self)
            && has_well_wiring(self)
            && has_well_rules(self)
    }
}

fn is_small(plan: &DataSet) -> bool
    ensures { IsTrue result ↔ IsSmall plan.now }
{
    plan.points.len() <= MOST_POINTS
        && plan.signals.len() <= MOST_SIGNALS
        && plan.tracks.len() <= MOST_TRACKS
        && plan.routes.len() <= MOST_ROUTES
        && plan.subs.len() <= MOST_SUBS
        && plan.flags.len() <= MOST_FLAGS
        && plan.requests.len() <= MOST_REQUESTS
        && plan.statements.len() <= MOST_STATEMENTS
        && plan.modules.len() <= MOST_MODULES
}

fn has_well_layout(plan: &DataSet) -> bool
    requires { IsWithinLimits (counts_of plan.now) }
    ensures { IsTrue result ↔ HasWellLayout plan.now }
{
    let counts = plan.counts();
    plan.points.iter().all(|row| is_well_points(&counts, row))
        && plan.routes.iter().all(|row| is_well_route(&counts, row))
        && plan.subs.iter().all(|row| is_well_sub(&counts, row))
}

fn is_well_points(counts: &Counts, row: &PointsRow) -> bool
    ensures { IsTrue result ↔ IsWellPoints counts.now row.now }
{
    let tracks = row.tracks.as_slice();
    if tracks.is_empty() || tracks.len() > MOST_TRACKS_OF_POINTS {
        return false;
    }
    are_below(tracks, counts.tracks)
}

fn is_well_route(counts: &Counts, row: &RouteRow) -> bool
    ensures { IsTrue result ↔ IsWellRoute counts.now row.now }
{
    let subs = row.subs.as_slice();
    if subs.is_empty() || subs.len() > MOST_SUBS_OF_ROUTE {
        return false;
    }
    row.signal < counts.signals && are_below(subs, counts.subs)
}

fn is_well_sub(counts: &Counts, row: &SubRow) -> bool
    ensures { IsTrue result ↔ IsWellSub counts.now row.now }
{
    if row.track >= counts.tracks || row.lies.len() > MOST_POINTS_OF_SUB {
        return false;
    }
    are_of_points(row.lies.as_slice(), counts.points) && do_numbers_differ(row.lies.as_slice())
}

/// Whether each lie is of one of so many points.
fn are_of_points(lies: &[(u16, bool)], count: u16) -> bool
    ensures { IsTrue result ↔ All (λ lie. lie.0 < count) lies.now }
{
    lies.iter().all(|(points, _)| *points < count)
}

fn has_well_wiring(plan: &DataSet) -> bool
    requires { IsWithinLimits (counts_of plan.now) }
    ensures { IsTrue result ↔ HasWellWiring plan.now }
{
    are_well_modules(plan) && do_addresses_differ(plan) && are_all_wired_once(plan)
}

fn has_well_rules(plan: &DataSet) -> bool
    requires { IsWithinLimits (counts_of plan.now) }
    ensures { IsTrue result ↔ HasWellRules plan.now }
{
    are_well_moves(plan)
        && are_well_requests(plan)
        && are_well_statements(plan)
        && are_well_outputs(plan)
        && are_well_inputs(plan)
}

fn are_well_moves(plan: &DataSet) -> bool
    requires { IsWithinLimits (counts_of plan.now) }
    ensures { IsTrue result ↔ All (HasWellMoves (scope_of_moves plan.now)) plan.now.points }
{
    let place = move_place(plan);
    plan.points.iter().all(|row| has_well_moves(&place, row))
}

fn has_well_moves(place: &CondPlace, row: &PointsRow) -> bool
    ensures { IsTrue result ↔ HasWellMoves (cond_scope_of place.now) row.now }
{
    is_well_where_given(place, &row.free_normal) && is_well_where_given(place, &row.free_reverse)
}

fn are_well_requests(plan: &DataSet) -> bool
    requires { IsWithinLimits (counts_of plan.now) }
    ensures { IsTrue result ↔ All (λ row. IsWellBody (scope_of_decisions plan.now) row.body) plan.now.requests }
{
    let place = decision_place(plan);
    plan.requests
        .iter()
        .all(|row| is_well_body(&place, &row.body))
}

fn are_well_statements(plan: &DataSet) -> bool
    requires { IsWithinLimits (counts_of plan.now) }
    ensures { IsTrue result ↔ All (IsWellStatement (scope_of_decisions plan.now)) plan.now.statements }
{
    let place = decision_place(plan);
    plan.statements
        .iter()
        .all(|row| is_well_statement(&place, row))
}

fn is_well_statement(place: &BodyPlace, row: &Stmt) -> bool
    ensures { IsTrue result ↔ IsWellStatement (body_scope_of place.now) row.now }
{
    is_well_cond(&place.guards, &row.guard) && are_well_commands(place, row.commands.as_slice())
}

fn are_well_outputs(plan: &DataSet) -> bool
    requires { IsWithinLimits (counts_of plan.now) }
    ensures { IsTrue result ↔ All (λ row. AreWellOutputs (scope_of_conds plan.now 0) row.outputs) plan.now.modules }
{
    let place = cond_place(plan, 0);
    plan.modules
        .iter()
        .all(|row| are_well_bits(&place, row.outputs.as_slice()))
}

/// Whether the bits that are sent to a module are eight, each with a well condition or none.
fn are_well_bits(place: &CondPlace, outputs: &[Option<Cond>]) -> bool
    ensures { IsTrue result ↔ AreWellOutputs (cond_scope_of place.now) outputs.now }
{
    outputs.len() == usize::from(BITS)
        && outputs
            .iter()
            .all(|output| is_well_where_given(place, output))
}

fn are_well_inputs(plan: &DataSet) -> bool
    requires { IsWithinLimits (counts_of plan.now) }
    ensures { IsTrue result ↔ All (λ row. IfSome row.input (IsWellBody (scope_of_inputs plan.now))) plan.now.modules }
{
    let place = input_place(plan);
    plan.modules
        .iter()
        .all(|row| is_well_body_where_given(&place, &row.input))
}
