//! Whole layouts under `run`: trains, jammed points, dead modules and damaged telegrams, with the lines that the rules give, worked by hand.

use crate::whole_runs::{expect_rows, make_shelf, run};
use ssi_trackside::{Event, PointsModule, SignalModule, TrackModule, Trackside};
use std::alloc::Global;
use std::process::Abort;
use std::test::Fail;

/// A junction: trains from S1 run over T2, with P1 reverse, to T3; trains from S2 run the other way.
pub const JUNCTION: &str =
    "file PTS\nP1 over T2 .\nfile SIG\nS1 .\nS2 .\nfile TCS\nT1 .\nT2 .\nT3 .\n\
    file RTE\nR1 from S1 by U1, U2 .\nR2 from S2 by U3, U4 .\n\
    file SUB\nU1 on T2 with P1 cr .\nU2 on T3 .\nU3 on T3 .\nU4 on T2 with P1 cr .\nfile FLG\n\
    file TFM\n1 points P1 at 0 .\n2 signal S1 at 0, S2 at 1 .\n3 track T1 at 0, T2 at 1, T3 at 2 .\n\
    file PRR\nQ1 if R1 a, P1 crf, U3 f, U4 f then R1 s, P1 cr, U1 l, U2 l end .\n\
    Q2 if R2 a, P1 crf, U1 f, U2 f then R2 s, P1 cr, U3 l, U4 l end .\nQ3 if P1 cnf then P1 cn end .\n\
    file PFM\nP1 cn if T2 c, U1 f, U4 f .\nP1 cr if T2 c .\n\
    file FOP\nU1 f if R1 xs, T2 c .\nU2 f if U1 f, T3 c .\nU3 f if R2 xs, T3 c .\nU4 f if U3 f, T2 c .\n\
    R1 xs if T2 o, U1 l .\nR2 xs if T3 o, U3 l .\n\
    file OPT\n1 bit 0 if P1 cn bit 1 if P1 cr .\n\
    2 bit 0 if R1 s, U1 l, U2 l, P1 dr, T2 c, T3 c bit 1 if R2 s, U3 l, U4 l, P1 dr, T2 c, T3 c .\n\
    file IPT\n1 if 0 h then P1 dn else P1 xdn end, if 1 h then P1 dr else P1 xdr end .\n\
    2 if 0 h then S1 lp else S1 xlp end, if 1 h then S2 lp else S2 xlp end .\n\
    3 if 0 h then T1 c else T1 o end, if 1 h then T2 c else T2 o end, if 2 h then T3 c else T3 o end .\n";

/// One track, at pin 0 of the track module 5.
pub const ONE_TRACK: &str =
    "file PTS\nfile SIG\nfile TCS\nT1 .\nfile RTE\nfile SUB\nfile FLG\nfile TFM\n5 track T1 at 0 .\nfile PRR\nfile PFM\nfile FOP\nfile OPT\nfile IPT\n5 if 0 h then T1 c else T1 o end .\n";

/// A script over a layout, and the lines of its minor cycles.
#[derive(Clone, Copy)]
struct Run {
    layout: &'static str,
    script: &'static str,
    /// How many minor cycles there are.
    count: u64,
    /// What stands behind the numbers of these minor cycles.
    told: &'static [(u64, &'static str)],
    /// What stands behind the numbers of all others that have a slot, from a minor cycle on.
    slots: &'static [(u64, u64, &'static str)],
}

/// What stands behind the number of a minor cycle that isn't told by itself.
fn in_its_slot(run: Run, number: u64) -> &'static str {
    for (slot, from, text) in run.slots {
        if number % 64 == *slot && number >= *from {
            return text;
        }
    }
    "- - -"
}

/// What stands behind the number of a minor cycle.
fn behind(run: Run, number: u64) -> &'static str {
    for (told, text) in run.told {
        if *told == number {
            return text;
        }
    }
    in_its_slot(run, number)
}

/// The lines of all minor cycles.
fn lines(alloc: Global, run: Run) -> Result<String, Fail> {
    let mut text = String::new(alloc);
    for number in 0..run.count {
        let rest = behind(run, number);
        text.push_str(format!(in alloc; "{number} {rest}\n")?.as_str())?;
    }
    Ok(text)
}

/// That a script over a layout writes its lines, and no more.
fn expect_lines(rt: &impl Abort, alloc: Global, run: Run) -> Result<(), Fail> {
    let script = run.script;
    let steps = format!(in alloc; "file RUN\n{script}")?;
    let wanted = lines(alloc, run)?;
    expect_rows(
        rt,
        alloc,
        &[(run.layout, steps.as_str(), 0, wanted.as_str())],
    )
}

/// The lines of the signals and the tracks of the junction where nothing else is told.
const QUIET: &[(u64, u64, &str)] = &[(2, 3, "8200FF7D 42FF00BD -"), (3, 4, "8300FF7C 43FF00BC -")];

#[test]
fn junction_trains_pass(rt: HostRuntime) -> Result<(), Fail> {
    let run = Run {
        layout: JUNCTION,
        script: "cycle 64 . panel 0 Q1 . cycle 256 . occupy T2 . cycle 64 . occupy T3 . clear T2 . cycle 128 . clear T3 . cycle 128 .",
        count: 640,
        told: &[
            // The modules report: the points lie normal, the lamps are proved, the tracks are clear.
            (1, "8101FE7E 4105FABE - P1:dn"),
            (2, "8200FF7D 42FF00BD - S1:lp S2:lp"),
            (3, "8300FF7C 43FF00BC - T1:c T2:c T3:c"),
            // The route is set, and the points go reverse.
            (64, "- - 0:Q1 P1:cr R1:s U1:l U2:l"),
            (65, "8102FD7E 4104FBBE - P1:xdn"),
            (129, "8102FD7E 4104FBBE -"),
            (193, "8102FD7E 4104FBBE -"),
            (257, "8102FD7E 4106F9BE - P1:dr"),
            // The signal shows proceed until the train is behind it.
            (258, "8201FE7D 42FF00BD -"),
            (321, "8102FD7E 4106F9BE -"),
            (322, "8201FE7D 42FF00BD -"),
            (323, "8300FF7C 43FD02BC - T2:o"),
            (324, "- - - R1:xs"),
            (385, "8102FD7E 4106F9BE -"),
            (387, "8300FF7C 43FB04BC - T2:c T3:o"),
            (448, "- - - U1:f"),
            (449, "8102FD7E 4106F9BE -"),
            (451, "8300FF7C 43FB04BC -"),
            (513, "8102FD7E 4106F9BE -"),
            (515, "8300FF7C 43FF00BC - T3:c"),
            (577, "8102FD7E 4106F9BE - U2:f"),
        ],
        slots: QUIET,
    };
    expect_lines(&rt, rt.alloc(), run)
}

#[test]
fn jammed_points(rt: HostRuntime) -> Result<(), Fail> {
    let run = Run {
        layout: JUNCTION,
        script: "cycle 64 . jam P1 . panel 0 Q1 . cycle 320 . unjam P1 . cycle 256 .",
        count: 640,
        told: &[
            (1, "8101FE7E 4105FABE - P1:dn"),
            (2, "8200FF7D 42FF00BD - S1:lp S2:lp"),
            (3, "8300FF7C 43FF00BC - T1:c T2:c T3:c"),
            (64, "- - 0:Q1 P1:cr R1:s U1:l U2:l"),
            // The jammed machine is detected nowhere, and stays so while it moves at last.
            (65, "8102FD7E 4104FBBE - P1:xdn"),
            (577, "8102FD7E 4106F9BE - P1:dr"),
            (578, "8201FE7D 42FF00BD -"),
        ],
        slots: &[
            (1, 129, "8102FD7E 4104FBBE -"),
            (2, 66, "8200FF7D 42FF00BD -"),
            (3, 67, "8300FF7C 43FF00BC -"),
        ],
    };
    expect_lines(&rt, rt.alloc(), run)
}

#[test]
fn dropped_and_lost_while_points_are_driven(rt: HostRuntime) -> Result<(), Fail> {
    let quiet = &[
        (1, 386, "8102FD7E 4106F9BE -"),
        (2, 3, "8200FF7D 42FF00BD -"),
        (3, 4, "8300FF7C 43FF00BC -"),
    ];
    let dropped = Run {
        layout: JUNCTION,
        script: "cycle 64 . panel 0 Q1 . cycle 1 . drop 1 . cycle 319 .",
        count: 384,
        told: &[
            (1, "8101FE7E 4105FABE - P1:dn"),
            (2, "8200FF7D 42FF00BD - S1:lp S2:lp"),
            (3, "8300FF7C 43FF00BC - T1:c T2:c T3:c"),
            (64, "- - 0:Q1 P1:cr R1:s U1:l U2:l"),
            // The command doesn't reach the points, so they move a major cycle later.
            (65, "8102FD7E - - P1:xdn"),
            (129, "8102FD7E 4104FBBE -"),
            (193, "8102FD7E 4104FBBE -"),
            (257, "8102FD7E 4104FBBE -"),
            (321, "8102FD7E 4106F9BE - P1:dr"),
            (322, "8201FE7D 42FF00BD -"),
        ],
        slots: quiet,
    };
    let lost = Run {
        script: "cycle 64 . panel 0 Q1 . cycle 1 . lose 1 . cycle 319 .",
        told: &[
            (1, "8101FE7E 4105FABE - P1:dn"),
            (2, "8200FF7D 42FF00BD - S1:lp S2:lp"),
            (3, "8300FF7C 43FF00BC - T1:c T2:c T3:c"),
            (64, "- - 0:Q1 P1:cr R1:s U1:l U2:l"),
            // The command reaches the points, and only the report is lost.
            (65, "8102FD7E - - P1:xdn"),
            (129, "8102FD7E 4104FBBE -"),
            (193, "8102FD7E 4104FBBE -"),
            (257, "8102FD7E 4106F9BE - P1:dr"),
            (258, "8201FE7D 42FF00BD -"),
            (321, "8102FD7E 4106F9BE -"),
            (322, "8201FE7D 42FF00BD -"),
        ],
        ..dropped
    };
    for run in [dropped, lost] {
        expect_lines(&rt, rt.alloc(), run)?;
    }
    Ok(())
}

/// A script over the layout of one track, with the lines of minor cycles that aren't idle.
fn on_one_track(script: &'static str, count: u64, told: &'static [(u64, &'static str)]) -> Run {
    Run {
        layout: ONE_TRACK,
        script,
        count,
        told,
        slots: &[],
    }
}

#[test]
fn damaged_report_restricts(rt: HostRuntime) -> Result<(), Fail> {
    let run = on_one_track(
        "raw 5 69 1 254 186 . cycle 6 . raw 5 69 1 255 186 . cycle 64 .",
        70,
        &[
            (5, "8500FF7A 4501FEBA - T1:c"),
            (69, "8500FF7A 4501FFBA - T1:o"),
        ],
    );
    expect_lines(&rt, rt.alloc(), run)
}

#[test]
fn foreign_dead_and_lost_reports(rt: HostRuntime) -> Result<(), Fail> {
    let runs = [
        // A report of another address is none of this one.
        on_one_track(
            "cycle 6 . raw 5 70 1 254 185 . cycle 64 .",
            70,
            &[
                (5, "8500FF7A 45FF00BA - T1:c"),
                (69, "8500FF7A 4601FEB9 - T1:o"),
            ],
        ),
        // A dead module doesn't report, until it lives again.
        on_one_track(
            "cycle 6 . dead 5 . cycle 64 . live 5 . cycle 64 .",
            134,
            &[
                (5, "8500FF7A 45FF00BA - T1:c"),
                (69, "8500FF7A - - T1:o"),
                (133, "8500FF7A 45FF00BA - T1:c"),
            ],
        ),
        // One report is lost, and so it is where the command is lost too.
        on_one_track(
            "cycle 6 . lose 5 . cycle 64 . cycle 64 .",
            134,
            &[
                (5, "8500FF7A 45FF00BA - T1:c"),
                (69, "8500FF7A - - T1:o"),
                (133, "8500FF7A 45FF00BA - T1:c"),
            ],
        ),
        on_one_track(
            "cycle 6 . drop 5 . cycle 128 .",
            134,
            &[
                (5, "8500FF7A 45FF00BA - T1:c"),
                (69, "8500FF7A - - T1:o"),
                (133, "8500FF7A 45FF00BA - T1:c"),
            ],
        ),
        // Four bytes may arrive for a dead module.
        on_one_track(
            "dead 5 . raw 5 69 1 254 186 . cycle 70 .",
            70,
            &[(5, "8500FF7A 4501FEBA - T1:c"), (69, "8500FF7A - - T1:o")],
        ),
        // What happens to a dead module shows once it lives.
        on_one_track(
            "cycle 6 . dead 5 . occupy T1 . cycle 64 . live 5 . cycle 64 . clear T1 . cycle 64 .",
            198,
            &[
                (5, "8500FF7A 45FF00BA - T1:c"),
                (69, "8500FF7A - - T1:o"),
                (133, "8500FF7A 45FE01BA -"),
                (197, "8500FF7A 45FF00BA - T1:c"),
            ],
        ),
    ];
    for run in runs {
        expect_lines(&rt, rt.alloc(), run)?;
    }
    Ok(())
}

#[test]
fn a_later_mark_takes_the_place_of_an_earlier_one(rt: HostRuntime) -> Result<(), Fail> {
    let runs = [
        on_one_track(
            "raw 5 69 1 254 186 . lose 5 . cycle 6 .",
            6,
            &[(5, "8500FF7A - -")],
        ),
        on_one_track(
            "lose 5 . drop 5 . raw 5 69 1 254 186 . cycle 6 .",
            6,
            &[(5, "8500FF7A 4501FEBA - T1:c")],
        ),
        on_one_track(
            "raw 5 1 2 3 4 . raw 5 69 1 254 186 . cycle 6 .",
            6,
            &[(5, "8500FF7A 4501FEBA - T1:c")],
        ),
        // However often it is marked, one exchange uses it up.
        on_one_track(
            "lose 5 . lose 5 . drop 5 . lose 5 . cycle 70 .",
            70,
            &[(5, "8500FF7A - -"), (69, "8500FF7A 45FF00BA - T1:c")],
        ),
        // It waits for the exchange, however long that is.
        on_one_track(
            "cycle 6 . lose 5 . cycle 63 . cycle 1 . cycle 64 .",
            134,
            &[
                (5, "8500FF7A 45FF00BA - T1:c"),
                (69, "8500FF7A - - T1:o"),
                (133, "8500FF7A 45FF00BA - T1:c"),
            ],
        ),
    ];
    for run in runs {
        expect_lines(&rt, rt.alloc(), run)?;
    }
    Ok(())
}

/// A script over the junction, with the lines of minor cycles that aren't idle.
fn on_junction(script: &'static str, count: u64, told: &'static [(u64, &'static str)]) -> Run {
    Run {
        layout: JUNCTION,
        script,
        count,
        told,
        slots: &[],
    }
}

#[test]
fn points_not_free_under_occupied_track(rt: HostRuntime) -> Result<(), Fail> {
    let run = on_junction("panel 0 Q1 . cycle 1 .", 1, &[(0, "- - 0:Q1")]);
    expect_lines(&rt, rt.alloc(), run)
}

#[test]
fn lamps_fail_and_are_mended(rt: HostRuntime) -> Result<(), Fail> {
    let runs = [
        on_junction(
            "fail S1 . cycle 3 .",
            3,
            &[
                (1, "8101FE7E 4105FABE - P1:dn"),
                (2, "8200FF7D 42FE01BD - S2:lp"),
            ],
        ),
        on_junction(
            "fail S1 . fail S2 . mend S1 . cycle 3 .",
            3,
            &[
                (1, "8101FE7E 4105FABE - P1:dn"),
                (2, "8200FF7D 42FD02BD - S1:lp"),
            ],
        ),
    ];
    for run in runs {
        expect_lines(&rt, rt.alloc(), run)?;
    }
    Ok(())
}

/// Four flags and 65 statements: of the first three the one sets what the next waits for, and the last of them stands in slot 32.
fn layout_of_statements(alloc: Global) -> Result<String, Fail> {
    let mut text = String::from_str(
        alloc,
        "file PTS file SIG file TCS file RTE file SUB file FLG L1 . L2 . L3 . L4 . file TFM file PRR file PFM file FOP L1 s if L1 xs . L2 s if L1 s . ",
    )?;
    for _statement in 0..62 {
        text.push_str("L4 s if L4 s . ")?;
    }
    text.push_str("L3 s if L2 s . file OPT file IPT ")?;
    Ok(text)
}

#[test]
fn statements_spread_over_slots(rt: HostRuntime) -> Result<(), Fail> {
    let alloc = rt.alloc();
    let layout = layout_of_statements(alloc)?;
    let told = &[(0, "- - - L1:s L2:s"), (32, "- - - L3:s")];
    let wanted = lines(alloc, on_one_track("", 64, told))?;
    expect_rows(
        &rt,
        alloc,
        &[(layout.as_str(), "file RUN cycle 64 .", 0, wanted.as_str())],
    )
}

/// A track module that counts the commands that come to it.
#[derive(Drop)]
struct CountingTrack {
    track: TrackModule,
    commands: u64,
}

impl Trackside for CountingTrack {
    ghost state = { λ counting. ⟦<TrackModule as Trackside>⟧.state counting.track };

    fn kind(&self) -> u8 {
        self.track.kind()
    }

    fn command(&mut self, value: u8) {
        self.commands = self.commands.saturating_add(1);
        self.track.command(value);
    }

    fn report(&self) -> Option<u8> {
        self.track.report()
    }

    fn event(&mut self, event: Event) {
        self.track.event(event);
    }

    fn is_fresh(&self) -> bool {
        self.track.is_fresh()
    }
}

#[test]
fn a_box_of_another_type_gives_the_same(rt: HostRuntime) -> Result<(), Fail> {
    let alloc = rt.alloc();
    let mut shelf = make_shelf!(alloc);
    let counting = CountingTrack {
        track: TrackModule::new(),
        commands: 0,
    };
    // The track module of address 5.
    assert!(rt; shelf.len() > 14);
    shelf[14] = Box::new(alloc, counting)?;
    let case = on_one_track(
        "raw 5 69 1 254 186 . cycle 6 . raw 5 69 1 255 186 . cycle 64 . cycle 64 .",
        134,
        &[
            (5, "8500FF7A 4501FEBA - T1:c"),
            (69, "8500FF7A 4501FFBA - T1:o"),
            (133, "8500FF7A 45FF00BA - T1:c"),
        ],
    );
    let script = case.script;
    let steps = format!(in alloc; "file RUN\n{script}")?;
    let (status, written) = run(&rt, alloc, ONE_TRACK, steps.as_str(), &mut shelf)?;
    assert_eq!(rt; status, 0);
    assert_eq!(rt; written.as_slice(), lines(alloc, case)?.as_bytes());
    Ok(())
}
