//! Kinds of identities, and the numbers of the facts of a state.

ghost use Rattle.std.specs.Prelude.{◌≡◌, ℕ, ◌<◌, ◌≤◌, ◌+◌, ◌*◌, length, map, slice_get, Some};
ghost use Rattle.std.specs.List.{range_with_len};
ghost use Rattle.ssi_identities.specs.declared.fact.Counts.{Counts};
ghost use Rattle.ssi_identities.specs.declared.fact.FactKind.{FactKind};
ghost use Rattle.ssi_identities.specs.Facts.{IsWithinLimits, count_of, fact_count_of, fact_number_of, facts_of, first_of_routes, identity_of, number_of_fact};
ghost use Rattle.ssi_identities.specs.Words.{word_of};

/// A kind of identity. The first letter of an identity's name tells its kind.
#[derive(Clone, Copy, Debug, PartialEq, Eq)]
pub enum Kind {
    /// Points, `P`.
    Points,
    /// A signal, `S`.
    Signal,
    /// A track, `T`.
    Track,
    /// A route, `R`.
    Route,
    /// A sub-route, `U`.
    Subroute,
    /// A flag, `L`.
    Flag,
    /// A request, `Q`. It has no facts.
    Request,
}

/// A kind of fact. Each fact of a state is of one kind and of one identity.
#[derive(Clone, Copy, Debug, PartialEq, Eq)]
pub enum FactKind {
    /// The points are controlled reverse.
    Reverse,
    /// The points are detected normal.
    DetectedNormal,
    /// The points are detected reverse.
    DetectedReverse,
    /// The signal's lamp is proved.
    Lamp,
    /// The track is occupied.
    Occupied,
    /// The route is set.
    RouteSet,
    /// The route is barred.
    RouteBarred,
    /// The sub-route is locked.
    Locked,
    /// The flag is set.
    FlagSet,
}

impl FactKind {
    /// The kind of identity that such a fact is of.
    pub fn identity(self) -> Kind
        ensures { result ≡ identity_of self }
    {
        match self {
            FactKind::Reverse | FactKind::DetectedNormal | FactKind::DetectedReverse =>
                Kind::Points,
            FactKind::Lamp => Kind::Signal,
            FactKind::Occupied => Kind::Track,
            FactKind::RouteSet | FactKind::RouteBarred => Kind::Route,
            FactKind::Locked => Kind::Subroute,
            FactKind::FlagSet => Kind::Flag,
        }
    }

    /// The word for such a fact that is true or false.
    pub fn word(self, value: bool) -> &'static [u8]
        ensures { result.now ≡ word_of self value }
    {
        let (when_true, when_false): (&'static [u8], &'static [u8]) = match self {
            FactKind::Reverse => (b"cr", b"cn"),
            FactKind::DetectedNormal => (b"dn", b"xdn"),
            FactKind::DetectedReverse => (b"dr", b"xdr"),
            FactKind::Lamp => (b"lp", b"xlp"),
            FactKind::Occupied => (b"o", b"c"),
            FactKind::RouteSet => (b"s", b"xs"),
            FactKind::RouteBarred => (b"xa", b"a"),
            FactKind::Locked => (b"l", b"f"),
            FactKind::FlagSet => (b"s", b"xs"),
        };
        if value { when_true } else { when_false }
    }
}

/// How many identities of each kind there are. The limits of a layout stand in [`crate::limits`].
#[derive(Clone, Copy, Debug, PartialEq, Eq)]
pub struct Counts {
    /// Points.
    pub points: u16,
    /// Signals.
    pub signals: u16,
    /// Tracks.
    pub tracks: u16,
    /// Routes.
    pub routes: u16,
    /// Sub-routes.
    pub subs: u16,
    /// Flags.
    pub flags: u16,
    /// Requests.
    pub requests: u16,
}

/// How many facts a state has, at most 3,946.
pub fn fact_count(counts: &Counts) -> u16
    requires { IsWithinLimits counts.now }
    ensures { result ≡ fact_count_of counts.now }
{
    3 * counts.points
        + counts.signals
        + counts.tracks
        + 2 * counts.routes
        + counts.subs
        + counts.flags
}

/// The number of a fact, by its kind and its identity's number, which is below the count of the kind.
pub fn fact_number(counts: &Counts, kind: FactKind, index: u16) -> u16
    requires limits { IsWithinLimits counts.now }
    requires within { index < count_of counts.now kind }
    ensures { result ≡ fact_number_of counts.now kind index }
{
    let lamps = 3 * counts.points;
    let tracks = lamps + counts.signals;
    let routes = tracks + counts.tracks;
    let subs = routes + 2 * counts.routes;
    match kind {
        FactKind::Reverse => 3 * index,
        FactKind::DetectedNormal => 3 * index + 1,
        FactKind::DetectedReverse => 3 * index + 2,
        FactKind::Lamp => lamps + index,
        FactKind::Occupied => tracks + index,
        FactKind::RouteSet => routes + 2 * index,
        FactKind::RouteBarred => routes + 2 * index + 1,
        FactKind::Locked => subs + index,
        FactKind::FlagSet => subs + counts.subs + index,
    }
}

/// The kind of a fact and its identity's number, by the fact's number, which is below [`fact_count`].
pub fn fact_of(counts: &Counts, fact: u16) -> (FactKind, u16)
    requires limits { IsWithinLimits counts.now }
    requires within { fact < fact_count_of counts.now }
    ensures within { result.1 < count_of counts.now result.0 }
    ensures number { fact_number_of counts.now result.0 result.1 ≡ fact }
{
    let lamps = 3 * counts.points;
    let tracks = lamps + counts.signals;
    let routes = tracks + counts.tracks;
    let subs = routes + 2 * counts.routes;
    if fact < lamps {
        return points_fact(fact);
    }
    if fact < tracks {
        return (FactKind::Lamp, fact - lamps);
    }
    if fact < routes {
        return (FactKind::Occupied, fact - tracks);
    }
    if fact < subs {
        return route_fact(fact - routes);
    }
    if fact < subs + counts.subs {
        return (FactKind::Locked, fact - subs);
    }
    (FactKind::FlagSet, fact - subs - counts.subs)
}

/// The kind of a fact of points and the points' number.
fn points_fact(fact: u16) -> (FactKind, u16)
    ensures within { 3 * result.1 ≤ fact }
    ensures number { (counts : Counts) → fact_number_of counts result.0 result.1 ≡ fact }
    ensures kind { (counts : Counts) → count_of counts result.0 ≡ counts.points }
{
    let index = fact / 3;
    match fact % 3 {
        0 => (FactKind::Reverse, index),
        1 => (FactKind::DetectedNormal, index),
        _ => (FactKind::DetectedReverse, index),
    }
}

/// The kind of a fact of a route and the route's number, by the fact's place among those of routes.
fn route_fact(place: u16) -> (FactKind, u16)
    ensures within { 2 * result.1 ≤ place }
    ensures number { (counts : Counts) → fact_number_of counts result.0 result.1 ≡ first_of_routes counts + place }
    ensures kind { (counts : Counts) → count_of counts result.0 ≡ counts.routes }
{
    let index = place / 2;
    if place % 2 == 0 {
        (FactKind::RouteSet, index)
    } else {
        (FactKind::RouteBarred, index)
    }
}

/// Each number is that of one fact.
pub fn one_fact()
    ensures { (counts : Counts) (kind other : FactKind) (index place : ℕ)
        → index < count_of counts kind → place < count_of counts other
        → fact_number_of counts kind index ≡ fact_number_of counts other place
        → (kind ≡ other) × (index ≡ place) }
{}

/// The facts in their order: there are as many as [`fact_count`] says, each stands at its number, and
/// their numbers are those from 0 on.
pub fn facts_in_order()
    ensures count { (counts : Counts) → length (facts_of counts) ≡ fact_count_of counts }
    ensures place { (counts : Counts) (kind : FactKind) (index : ℕ) → index < count_of counts kind
        → slice_get (facts_of counts) (fact_number_of counts kind index)
        ≡ Some (record { kind = kind; index = index }) }
    ensures numbers { (counts : Counts)
        → map (number_of_fact counts) (facts_of counts) ≡ range_with_len 0 (fact_count_of counts) }
{}
