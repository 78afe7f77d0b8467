//! Where conditions and bodies stand, and what their names mean there.

ghost use Rattle.std.specs.Prelude.{◌≡◌, position, is_some, IfSome};
ghost use Rattle.std.specs.Str.{bytes_eq};
ghost use Rattle.ssi_identities.specs.Facts.{identity_of};
ghost use Rattle.ssi_names.specs.Scopes as spec;
ghost use Rattle.ssi_names.specs.Scopes.{AreLimited, facts_by, numbers_by};
ghost use Rattle.ssi_names.specs.Tables.{knows, table_of};
ghost use Rattle.ssi_names.specs.Texts.{characters as characters_of};
ghost use Rattle.ssi_names.specs.Words.{kind_of};

use crate::rule_file::RuleFile;
use crate::tables::{Tables, table};
use crate::text::characters;
use crate::words::kind_by_name;
use ssi_identities::{Counts, FactKind, Kind, fact_number};
use ssi_terms::Spot;

/// Where conditions and bodies stand.
#[derive(Clone, Copy)]
pub struct Scope<'a> {
    /// The text.
    pub text: &'a [u8],
    /// The names that the text declares.
    pub tables: &'a Tables,
    /// How many there are of each kind. There are none where the layout is past its limits: it has no data set,
    /// and nothing is numbered.
    pub counts: Option<Counts>,
    /// The file.
    pub file: RuleFile,
}

/// A name in a condition or a command, looked up.
#[derive(Clone, Copy)]
pub struct UsedName<'a> {
    /// Its characters.
    pub name: &'a [u8],
    /// The kind of identity that it is of.
    pub kind: Kind,
    /// Its place among the names of its kind; none where it isn't declared.
    pub place: Option<usize>,
}

/// Looks up a name in a condition or a command.
#[tactic(auto, using(crate::proofs::Places::found_if_any))]
pub fn look_up<'a>(scope: &Scope<'a>, spot: &Spot) -> UsedName<'a>
    ensures name { result.name.now ≡ characters_of scope.now.text.now spot.now }
    ensures kind { result.kind ≡ kind_of result.name.now }
    ensures place { result.place ≡ position (bytes_eq result.name.now) (table_of scope.now.tables.now result.kind) }
    ensures known { is_some result.place ≡ knows scope.now.tables.now result.kind result.name.now }
{
    let name = characters(scope.text, spot);
    let kind = kind_by_name(name);
    UsedName {
        name,
        kind,
        place: table(scope.tables, kind).find(name),
    }
}

/// The number of a fact of the identity with a name.
fn fact_of(scope: &Scope<'_>, used: &UsedName<'_>, fact: FactKind) -> u16
    requires limited { AreLimited scope.now.counts (table_of scope.now.tables.now) }
    requires kind { used.now.kind ≡ kind_of used.now.name.now }
    requires place { used.now.place ≡ position (bytes_eq used.now.name.now) (table_of scope.now.tables.now used.now.kind) }
    requires own { identity_of fact ≡ used.now.kind }
    ensures { result ≡ facts_by scope.now.counts (table_of scope.now.tables.now) fact used.now.name.now }
{
    match (&scope.counts, used.place) {
        (Some(counts), Some(place)) => fact_number(counts, fact, place as u16),
        _ => 0,
    }
}

/// The number of the fact that is said of a name, and its value; fact 0 where nothing is said.
pub fn fact_said(
    scope: &Scope<'_>,
    used: &UsedName<'_>,
    said: Option<(FactKind, bool)>,
) -> (u16, bool)
    requires limited { AreLimited scope.now.counts (table_of scope.now.tables.now) }
    requires kind { used.now.kind ≡ kind_of used.now.name.now }
    requires place { used.now.place ≡ position (bytes_eq used.now.name.now) (table_of scope.now.tables.now used.now.kind) }
    requires own { IfSome said (λ s. identity_of s.0 ≡ used.now.kind) }
    ensures { result ≡ spec.said_of scope.now used.now.name.now said }
{
    match said {
        Some((fact, value)) => (fact_of(scope, used, fact), value),
        None => (0, false),
    }
}

/// The number of a name among those of its kind.
pub fn number_of(scope: &Scope<'_>, used: &UsedName<'_>) -> u16
    requires limited { AreLimited scope.now.counts (table_of scope.now.tables.now) }
    requires kind { used.now.kind ≡ kind_of used.now.name.now }
    requires place { used.now.place ≡ position (bytes_eq used.now.name.now) (table_of scope.now.tables.now used.now.kind) }
    ensures { result ≡ numbers_by scope.now.counts (table_of scope.now.tables.now) used.now.name.now }
{
    match (&scope.counts, used.place) {
        (Some(_), Some(place)) => place as u16,
        (Some(_), None) => table(scope.tables, used.kind).len() as u16,
        (None, _) => 0,
    }
}
