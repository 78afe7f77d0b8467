//! Whether the names of a kind are well: each is spelled as a name of the kind, and none stands twice.

ghost use Rattle.std.specs.Prelude.{◌≡◌, ◌↔◌, ℕ, ◌<◌, ◌∷◌, [], false, true, length, All, IsTrue};
ghost use Rattle.std.specs.List.{IsDistinct};
ghost use Rattle.std.specs.Str.{bytes_eq};
ghost use Rattle.ssi_identities.specs.DataSets.{Plan, counts_of, name_of, names_in};
ghost use Rattle.ssi_identities.specs.declared.fact.Kind.{Kind};
ghost use Rattle.ssi_identities.specs.Facts.{IsWithinLimits};
ghost use Rattle.ssi_identities.specs.IdentityNames.{IsNameOf, is_name_character, letter_of};
ghost use Rattle.ssi_identities.specs.Wells.{HasWellNames};

use crate::data_set::DataSet;
use crate::fact::{Counts, Kind};
use crate::limits::MOST_CHARACTERS;

/// All kinds.
const KINDS: [Kind; 7] = [
    Kind::Points,
    Kind::Signal,
    Kind::Track,
    Kind::Route,
    Kind::Subroute,
    Kind::Flag,
    Kind::Request,
];

/// Whether the names of every kind are well.
pub fn has_well_names(plan: &DataSet) -> bool
    requires { IsWithinLimits (counts_of plan.now) }
    ensures { IsTrue result ↔ ((kind : Kind) → HasWellNames plan.now kind) }
{
    for kind in KINDS {
        if !are_names_well(plan, kind) {
            return false;
        }
    }
    true
}

fn are_names_well(plan: &DataSet, kind: Kind) -> bool
    requires { IsWithinLimits (counts_of plan.now) }
    ensures { IsTrue result ↔ HasWellNames plan.now kind }
{
    let count = count_of_kind(&plan.counts(), kind);
    are_names_of(plan, kind, count) && do_names_differ(plan, kind, count)
}

/// How many identities of the kind there are.
fn count_of_kind(counts: &Counts, kind: Kind) -> u16
    ensures { (plan : Plan) → counts.now ≡ counts_of plan → result ≡ length (names_in plan kind) }
{
    match kind {
        Kind::Points => counts.points,
        Kind::Signal => counts.signals,
        Kind::Track => counts.tracks,
        Kind::Route => counts.routes,
        Kind::Subroute => counts.subs,
        Kind::Flag => counts.flags,
        Kind::Request => counts.requests,
    }
}

/// Whether each name of a kind, of which there are so many, is spelled as one of the kind.
fn are_names_of(plan: &DataSet, kind: Kind, count: u16) -> bool
    requires { count ≡ length (names_in plan.now kind) }
    ensures { IsTrue result ↔ All (IsNameOf kind) (names_in plan.now kind) }
{
    for index in 0..count {
        if !is_name_of(kind, plan.name(kind, index)) {
            return false;
        }
    }
    true
}

/// Whether the names of a kind, of which there are so many, differ.
fn do_names_differ(plan: &DataSet, kind: Kind, count: u16) -> bool
    requires { count ≡ length (names_in plan.now kind) }
    ensures { IsTrue result ↔ IsDistinct bytes_eq (names_in plan.now kind) }
{
    for index in 0..count {
        if !is_last(plan, kind, index, count) {
            return false;
        }
    }
    true
}

/// Whether a name doesn't stand again among those after it.
fn is_last(plan: &DataSet, kind: Kind, index: u16, count: u16) -> bool
    requires { index < count }
    ensures { IsTrue result ↔ ((later : ℕ) → index < later → later < count
        → bytes_eq (name_of plan.now kind index) (name_of plan.now kind later) ≡ false) }
{
    let name = plan.name(kind, index);
    for later in index + 1..count {
        if name == plan.name(kind, later) {
            return false;
        }
    }
    true
}

/// The letter with which the names of a kind begin.
fn letter(kind: Kind) -> u8
    ensures { result ∷ [] ≡ letter_of kind }
{
    match kind {
        Kind::Points => b'P',
        Kind::Signal => b'S',
        Kind::Track => b'T',
        Kind::Route => b'R',
        Kind::Subroute => b'U',
        Kind::Flag => b'L',
        Kind::Request => b'Q',
    }
}

fn is_name_character(c: u8) -> bool
    ensures { result ≡ is_name_character c }
{
    c.is_ascii_uppercase() || c.is_ascii_digit() || c == b'-'
}

fn has_name_characters(name: &[u8]) -> bool
    ensures { IsTrue result ↔ All (λ c. is_name_character c ≡ true) name.now }
{
    name.iter().all(|c| is_name_character(*c))
}

/// Whether a text is spelled as a name of the kind.
fn is_name_of(kind: Kind, name: &[u8]) -> bool
    ensures { IsTrue result ↔ IsNameOf kind name.now }
{
    if name.len() < 2 || name.len() > MOST_CHARACTERS {
        return false;
    }
    name[0] == letter(kind) && has_name_characters(name)
}
