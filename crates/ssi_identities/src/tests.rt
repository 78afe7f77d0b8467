ghost use Rattle.std.specs.Prelude.{◌≡◌, ◌<◌, length, IfOk};
ghost use Rattle.ssi_identities.specs.DataSets.{IsCountable};

use super::*;
use sqlite_items::Items;
use std::alloc::Global;
use std::process::Abort;
use std::test::Fail;

/// The facts of two points, one signal, three tracks, four routes, six sub-routes and five flags, in the
/// order of their numbers.
const FACTS: [(FactKind, u16); 29] = [
    (FactKind::Reverse, 0),
    (FactKind::DetectedNormal, 0),
    (FactKind::DetectedReverse, 0),
    (FactKind::Reverse, 1),
    (FactKind::DetectedNormal, 1),
    (FactKind::DetectedReverse, 1),
    (FactKind::Lamp, 0),
    (FactKind::Occupied, 0),
    (FactKind::Occupied, 1),
    (FactKind::Occupied, 2),
    (FactKind::RouteSet, 0),
    (FactKind::RouteBarred, 0),
    (FactKind::RouteSet, 1),
    (FactKind::RouteBarred, 1),
    (FactKind::RouteSet, 2),
    (FactKind::RouteBarred, 2),
    (FactKind::RouteSet, 3),
    (FactKind::RouteBarred, 3),
    (FactKind::Locked, 0),
    (FactKind::Locked, 1),
    (FactKind::Locked, 2),
    (FactKind::Locked, 3),
    (FactKind::Locked, 4),
    (FactKind::Locked, 5),
    (FactKind::FlagSet, 0),
    (FactKind::FlagSet, 1),
    (FactKind::FlagSet, 2),
    (FactKind::FlagSet, 3),
    (FactKind::FlagSet, 4),
];

#[test]
fn facts_stand_in_their_order(rt: HostRuntime) {
    let counts = Counts {
        points: 2,
        signals: 1,
        tracks: 3,
        routes: 4,
        subs: 6,
        flags: 5,
        requests: 7,
    };
    assert_eq!(rt; fact_count(&counts), 29);
    for fact in 0..fact_count(&counts) {
        let (kind, index) = fact_of(&counts, fact);
        assert_eq!(rt;
            FACTS.get(fact as usize).copied(),
            Some((kind, index)),
            "at {fact}"
        );
        assert_eq!(rt; fact_number(&counts, kind, index), fact);
    }
}

#[test]
fn facts_of_the_largest_layout(rt: HostRuntime) {
    let counts = Counts {
        points: 126,
        signals: 504,
        tracks: 504,
        routes: 512,
        subs: 1024,
        flags: 512,
        requests: 1024,
    };
    assert_eq!(rt; fact_count(&counts), 3946);
    assert_eq!(rt; fact_number(&counts, FactKind::DetectedReverse, 125), 377);
    assert_eq!(rt; fact_number(&counts, FactKind::Lamp, 503), 881);
    assert_eq!(rt; fact_number(&counts, FactKind::Occupied, 503), 1385);
    assert_eq!(rt; fact_number(&counts, FactKind::RouteBarred, 511), 2409);
    assert_eq!(rt; fact_number(&counts, FactKind::Locked, 1023), 3433);
    assert_eq!(rt; fact_of(&counts, 3945), (FactKind::FlagSet, 511));
}

#[test]
fn flags_alone_have_their_own_numbers(rt: HostRuntime) {
    let counts = Counts {
        points: 0,
        signals: 0,
        tracks: 0,
        routes: 0,
        subs: 0,
        flags: 512,
        requests: 0,
    };
    assert_eq!(rt; fact_count(&counts), 512);
    for flag in 0..512 {
        assert_eq!(rt; fact_number(&counts, FactKind::FlagSet, flag), flag);
        assert_eq!(rt; fact_of(&counts, flag), (FactKind::FlagSet, flag));
    }
}

#[test]
fn name_has_its_bytes(rt: HostRuntime) {
    let texts: [&[u8]; 3] = [b"", b"L1", b"ABCDEFGHIJ-12345"];
    for text in texts {
        assert!(rt; text.len() <= 16);
        assert_eq!(rt; Name::new(text).bytes(), text);
    }
}

/// Adds names one after another to none, and compares the number of each with the wanted one.
fn added(rt: &impl Abort, alloc: Global, rows: &[(Kind, &[u8], Added)]) -> Result<Names, Fail>
    requires { length rows.now < 65535 }
{
    let mut names = Names::new(alloc)?;
    for (kind, text, want) in rows {
        assert_eq!(rt; names.add(alloc, *kind, text)?, *want);
    }
    Ok(names)
}

#[test]
fn names_are_numbered_within_their_kind(rt: HostRuntime) -> Result<(), Fail> {
    let rows: [(Kind, &[u8], Added); 11] = [
        (Kind::Signal, b"S1", Added::New(0)),
        (Kind::Signal, b"S2", Added::New(1)),
        (Kind::Signal, b"S1", Added::Old(0)),
        (Kind::Track, b"S2", Added::New(0)),
        (Kind::Signal, b"S3", Added::New(2)),
        (Kind::Signal, b"S2", Added::Old(1)),
        (Kind::Points, b"P1", Added::New(0)),
        (Kind::Route, b"R1", Added::New(0)),
        (Kind::Subroute, b"U1", Added::New(0)),
        (Kind::Flag, b"L1", Added::New(0)),
        (Kind::Request, b"QBCDEFGHIJ-12345", Added::New(0)),
    ];
    let names = added(&rt, rt.alloc(), &rows)?;
    let finds: [(Kind, &[u8], Option<u16>); 9] = [
        (Kind::Signal, b"S1", Some(0)),
        (Kind::Signal, b"S2", Some(1)),
        (Kind::Signal, b"S3", Some(2)),
        (Kind::Track, b"S2", Some(0)),
        (Kind::Track, b"S1", None),
        (Kind::Signal, b"S", None),
        (Kind::Signal, b"S11", None),
        (Kind::Request, b"QBCDEFGHIJ-12345", Some(0)),
        (Kind::Flag, b"QBCDEFGHIJ-12345", None),
    ];
    for (kind, text, want) in finds {
        assert_eq!(rt; names.find(kind, text), want);
    }
    Ok(())
}

#[test]
fn facts_have_their_words(rt: HostRuntime) {
    let rows: [(FactKind, &[u8], &[u8]); 9] = [
        (FactKind::Reverse, b"cr", b"cn"),
        (FactKind::DetectedNormal, b"dn", b"xdn"),
        (FactKind::DetectedReverse, b"dr", b"xdr"),
        (FactKind::Lamp, b"lp", b"xlp"),
        (FactKind::Occupied, b"o", b"c"),
        (FactKind::RouteSet, b"s", b"xs"),
        (FactKind::RouteBarred, b"xa", b"a"),
        (FactKind::Locked, b"l", b"f"),
        (FactKind::FlagSet, b"s", b"xs"),
    ];
    for (kind, when_true, when_false) in rows {
        assert_eq!(rt; kind.word(true), when_true, "of {kind:?}");
        assert_eq!(rt; kind.word(false), when_false, "of {kind:?}");
    }
}

#[test]
fn facts_are_of_their_kind_of_identity(rt: HostRuntime) {
    let rows: [(FactKind, Kind); 9] = [
        (FactKind::Reverse, Kind::Points),
        (FactKind::DetectedNormal, Kind::Points),
        (FactKind::DetectedReverse, Kind::Points),
        (FactKind::Lamp, Kind::Signal),
        (FactKind::Occupied, Kind::Track),
        (FactKind::RouteSet, Kind::Route),
        (FactKind::RouteBarred, Kind::Route),
        (FactKind::Locked, Kind::Subroute),
        (FactKind::FlagSet, Kind::Flag),
    ];
    for (kind, identity) in rows {
        assert_eq!(rt; kind.identity(), identity, "of {kind:?}");
    }
}

#[test]
fn tracks_are_occupied_at_the_start(rt: HostRuntime) -> Result<(), Fail> {
    let counts = Counts {
        points: 1,
        signals: 2,
        tracks: 3,
        routes: 1,
        subs: 2,
        flags: 1,
        requests: 4,
    };
    let state = start(rt.alloc(), &counts)?;
    let want = [
        false, false, false, false, false, true, true, true, false, false, false, false, false,
    ];
    assert_eq!(rt; state.as_slice(), want.as_slice());
    Ok(())
}

/// A condition of one item.
pub fn one_item(alloc: Global, item: CondItem) -> Result<Cond, Fail> {
    Ok(Cond {
        items: Items::from_vec(vec![in alloc; item]?),
    })
}

/// A module of points, with a condition on one of eight bits, and a body that sets the first flag by a bit
/// of the report.
pub fn points_module(
    alloc: Global,
    address: u8,
    first: Option<u16>,
    second: Option<u16>,
) -> Result<ModuleRow, Fail> {
    let is_high = CondItem::Bit {
        bit: 0,
        wanted: true,
    };
    let set_l1 = BodyItem::Do(Cmd {
        fact: 13,
        value: true,
    });
    let choice = BodyItem::If {
        guard: one_item(alloc, is_high)?,
        then_body: Body {
            items: Items::from_vec(vec![in alloc; set_l1]?),
        },
        else_body: None,
    };
    let is_reverse = CondItem::Lit {
        fact: 0,
        wanted: true,
    };
    let output = Some(one_item(alloc, is_reverse)?);
    Ok(ModuleRow {
        address,
        kind: 0,
        pins: vec![in alloc; first, second]?,
        outputs: vec![in alloc; output, None, None, None, None, None, None, None]?,
        input: Some(Body {
            items: Items::from_vec(vec![in alloc; choice]?),
        }),
    })
}

/// A module of this address and kind with these identities at its first two pins.
pub fn other_module(
    alloc: Global,
    address: u8,
    kind: u8,
    first: Option<u16>,
    second: Option<u16>,
) -> Result<ModuleRow, Fail> {
    Ok(ModuleRow {
        address,
        kind,
        pins: vec![in alloc; first, second, None, None, None, None, None, None]?,
        outputs: vec![in alloc; None, None, None, None, None, None, None, None]?,
        input: None,
    })
}

/// A module of points, one of signals and one of tracks.
fn small_modules(alloc: Global) -> Result<Vec<ModuleRow>, Fail> {
    let points = points_module(alloc, 5, Some(1), Some(0))?;
    let signals = other_module(alloc, 6, 1, Some(0), None)?;
    let tracks = other_module(alloc, 63, 2, Some(0), Some(1))?;
    Ok(vec![in alloc; points, signals, tracks]?)
}

/// A statement that resets the first flag where the second points are free to move to normal or reverse.
pub fn small_statement(alloc: Global) -> Result<Stmt, Fail> {
    let normal = CondItem::Free {
        points: 1,
        reverse: false,
    };
    let reverse = CondItem::Free {
        points: 1,
        reverse: true,
    };
    let alternatives = vec![in alloc; one_item(alloc, normal)?, one_item(alloc, reverse)?]?;
    let reset_l1 = Cmd {
        fact: 13,
        value: false,
    };
    Ok(Stmt {
        commands: vec![in alloc; reset_l1]?,
        guard: one_item(alloc, CondItem::Any(Items::from_vec(alternatives)))?,
    })
}

/// Two points, the second free to move to normal by the condition, and to reverse where the first track is
/// clear.
pub fn small_points(alloc: Global, free_normal: Cond) -> Result<Vec<PointsRow>, Fail>
    ensures { IfOk result (λ rows. length rows.items ≡ 2) }
{
    let is_clear = CondItem::Lit {
        fact: 7,
        wanted: false,
    };
    let first = PointsRow {
        name: Name::new(b"P1"),
        tracks: vec![in alloc; 0]?,
        free_normal: None,
        free_reverse: None,
    };
    let second = PointsRow {
        name: Name::new(b"P2"),
        tracks: vec![in alloc; 0, 1]?,
        free_normal: Some(free_normal),
        free_reverse: Some(one_item(alloc, is_clear)?),
    };
    Ok(vec![in alloc; first, second]?)
}

/// Two requests, the first of which sets the second flag, and the second the first.
fn small_requests(alloc: Global) -> Result<Vec<RequestRow>, Fail>
    ensures { IfOk result (λ rows. length rows.items ≡ 2) }
{
    let set_l2 = BodyItem::Do(Cmd {
        fact: 14,
        value: true,
    });
    let set_l1 = BodyItem::Do(Cmd {
        fact: 13,
        value: true,
    });
    let first = RequestRow {
        name: Name::new(b"Q1"),
        body: Body {
            items: Items::from_vec(vec![in alloc; set_l2]?),
        },
    };
    let second = RequestRow {
        name: Name::new(b"QBCDEFGHIJ-12345"),
        body: Body {
            items: Items::from_vec(vec![in alloc; set_l1]?),
        },
    };
    Ok(vec![in alloc; first, second]?)
}

/// Two points, a signal, two tracks, a route, two sub-routes, three flags, two requests, a statement and
/// three modules. It is well.
pub fn small_data_set(alloc: Global) -> Result<DataSet, Fail>
    ensures { IfOk result IsCountable }
{
    let route = RouteRow {
        name: Name::new(b"R1"),
        signal: 0,
        subs: vec![in alloc; 0, 1]?,
    };
    let first_sub = SubRow {
        name: Name::new(b"U1"),
        track: 0,
        lies: vec![in alloc; (0, false)]?,
    };
    let second_sub = SubRow {
        name: Name::new(b"U2"),
        track: 1,
        lies: vec![in alloc; (0, true), (1, false)]?,
    };
    let is_occupied = CondItem::Lit {
        fact: 8,
        wanted: true,
    };
    Ok(DataSet {
        points: small_points(alloc, one_item(alloc, is_occupied)?)?,
        signals: vec![in alloc; Name::new(b"S1")]?,
        tracks: vec![in alloc; Name::new(b"T1"), Name::new(b"T2")]?,
        routes: vec![in alloc; route]?,
        subs: vec![in alloc; first_sub, second_sub]?,
        flags: vec![in alloc; Name::new(b"L1"), Name::new(b"L2"), Name::new(b"L3")]?,
        requests: small_requests(alloc)?,
        statements: vec![in alloc; small_statement(alloc)?]?,
        modules: small_modules(alloc)?,
    })
}

#[test]
fn data_set_counts_its_identities(rt: HostRuntime) -> Result<(), Fail> {
    let plan = small_data_set(rt.alloc())?;
    let want = Counts {
        points: 2,
        signals: 1,
        tracks: 2,
        routes: 1,
        subs: 2,
        flags: 3,
        requests: 2,
    };
    assert_eq!(rt; plan.counts(), want);
    Ok(())
}

#[test]
fn data_set_names_its_identities(rt: HostRuntime) -> Result<(), Fail> {
    let plan = small_data_set(rt.alloc())?;
    let rows: [(Kind, u16, &[u8]); 16] = [
        (Kind::Points, 0, b"P1"),
        (Kind::Points, 1, b"P2"),
        (Kind::Points, 2, b""),
        (Kind::Signal, 0, b"S1"),
        (Kind::Signal, 1, b""),
        (Kind::Track, 0, b"T1"),
        (Kind::Track, 1, b"T2"),
        (Kind::Route, 0, b"R1"),
        (Kind::Route, 1, b""),
        (Kind::Subroute, 0, b"U1"),
        (Kind::Subroute, 1, b"U2"),
        (Kind::Flag, 0, b"L1"),
        (Kind::Flag, 2, b"L3"),
        (Kind::Request, 0, b"Q1"),
        (Kind::Request, 1, b"QBCDEFGHIJ-12345"),
        (Kind::Request, 65535, b""),
    ];
    for (kind, index, want) in rows {
        assert_eq!(rt; plan.name(kind, index), want, "{kind:?} {index}");
    }
    Ok(())
}
