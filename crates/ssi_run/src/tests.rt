//! The program over memory: layouts and scripts with the output that the rules give, worked by hand.

use crate::program::ssi_program;
use crate::whole_runs::{answer, expect_rows, make_shelf, run};
use ssi_base::{MemSink, MemSource};
use ssi_trackside::{PointsModule, SignalModule, TrackModule, Trackside, is_shelf};
use std::alloc::Global;
use std::process::Abort;
use std::test::Fail;

/// A layout without an entry.
const EMPTY: &str =
    "file PTS\nfile SIG\nfile TCS\nfile RTE\nfile SUB\nfile FLG\nfile TFM\nfile PRR\nfile PFM\nfile FOP\nfile OPT\nfile IPT\n";

/// Two flags, and two requests of which the first is guarded by the first flag.
const FLAGS: &str =
    "file PTS\nfile SIG\nfile TCS\nfile RTE\nfile SUB\nfile FLG\nL1 .\nL2 .\nfile TFM\nfile PRR\nQ1 if L1 s then L2 s end .\nQ2 L1 s .\nfile PFM\nfile FOP\nfile OPT\nfile IPT\n";

/// What is written where the words have no known shape.
const USAGE: &[u8] = b"usage: ssi check | compile | run [--last n] | exec | yard n\n";

/// What is written for an input past the limit.
const TOO_LARGE: &[u8] = b"fault input more than 2097152 bytes\n";

/// Two flags and a request with this body.
fn layout_with(alloc: Global, body: &str) -> Result<String, Fail> {
    Ok(format!(in alloc;
        "file PTS file SIG file TCS file RTE file SUB file FLG L1 . L2 . file TFM file PRR Q1 {body} . file PFM file FOP file OPT file IPT "
    )?)
}

#[test]
fn scripts_over_layouts(rt: HostRuntime) -> Result<(), Fail> {
    let stated =
        "file PTS file SIG file TCS file RTE file SUB file FLG L1 . file TFM file PRR file PFM file FOP L1 s if L1 xs . file OPT file IPT ";
    let rows = [
        // Nothing waits, so nothing changes.
        (EMPTY, "file RUN cycle 1 .", 0, "0 - - -\n"),
        // A script with no step gives no line.
        (EMPTY, "file RUN", 0, ""),
        // Requests set flags in turn; the first guard is false.
        (
            FLAGS,
            "file RUN panel 0 Q1 . cycle 1 . panel 0 Q2 . panel 0 Q1 . cycle 2 .",
            0,
            "0 - - 0:Q1\n1 - - 0:Q2 L1:s\n2 - - 0:Q1 L2:s\n",
        ),
        // Requests are taken in the order of their puts, one in each minor cycle.
        (
            FLAGS,
            "file RUN panel 0 Q2 . panel 0 Q1 . cycle 3 .",
            0,
            "0 - - 0:Q2 L1:s\n1 - - 0:Q1 L2:s\n2 - - -\n",
        ),
        // Separators and comments of all kinds, and marks with no space around them.
        (
            FLAGS,
            "\tfile\r\nRUN/cycle 9 .\npanel 0 Q2./ caf\u{e9} ,\ncycle 1./",
            0,
            "0 - - 0:Q2 L1:s\n",
        ),
        // A statement acts in its slot, once its guard holds.
        (stated, "file RUN cycle 2 .", 0, "0 - - - L1:s\n1 - - -\n"),
    ];
    expect_rows(&rt, rt.alloc(), &rows)
}

/// A track that the module at address 1 reports.
const ONE_TRACK: &str =
    "file PTS\nfile SIG\nfile TCS\nT1 .\nfile RTE\nfile SUB\nfile FLG\nfile TFM\n1 track T1 at 0 .\nfile PRR\nfile PFM\nfile FOP\nfile OPT\nfile IPT\n1 if 0 h then T1 c else T1 o end .\n";

#[test]
fn scripts_drive_a_module(rt: HostRuntime) -> Result<(), Fail> {
    let rows = [
        // Its report clears the track, which is occupied at the start.
        (
            ONE_TRACK,
            "file RUN cycle 2 .",
            0,
            "0 - - -\n1 8100FF7E 41FF00BE - T1:c\n",
        ),
        (
            ONE_TRACK,
            "file RUN occupy T1 . cycle 2 .",
            0,
            "0 - - -\n1 8100FF7E 41FE01BE -\n",
        ),
        (
            ONE_TRACK,
            "file RUN occupy T1 . cycle 1 . clear T1 . cycle 1 .",
            0,
            "0 - - -\n1 8100FF7E 41FF00BE - T1:c\n",
        ),
        // No report arrives, or another telegram in its place.
        (
            ONE_TRACK,
            "file RUN lose 1 . cycle 2 .",
            0,
            "0 - - -\n1 8100FF7E - -\n",
        ),
        (
            ONE_TRACK,
            "file RUN drop 1 . cycle 2 .",
            0,
            "0 - - -\n1 8100FF7E - -\n",
        ),
        (
            ONE_TRACK,
            "file RUN dead 1 . cycle 2 .",
            0,
            "0 - - -\n1 8100FF7E - -\n",
        ),
        (
            ONE_TRACK,
            "file RUN dead 1 . live 1 . cycle 2 .",
            0,
            "0 - - -\n1 8100FF7E 41FF00BE - T1:c\n",
        ),
        (
            ONE_TRACK,
            "file RUN raw 1 1 2 3 255 . cycle 2 .",
            0,
            "0 - - -\n1 8100FF7E 010203FF -\n",
        ),
        // The mark that an address has last counts.
        (
            ONE_TRACK,
            "file RUN lose 1 . raw 1 65 255 0 190 . cycle 2 .",
            0,
            "0 - - -\n1 8100FF7E 41FF00BE - T1:c\n",
        ),
    ];
    expect_rows(&rt, rt.alloc(), &rows)
}

#[test]
fn bodies_act_item_by_item(rt: HostRuntime) -> Result<(), Fail> {
    let cases = [
        // Later items see earlier effects.
        (
            "if L1 xs then L1 s, if L1 s then L2 s else L1 xs end end",
            "0 - - 0:Q1 L1:s L2:s\n1 - - 0:Q1\n",
        ),
        // A guard is valued once, before its branch.
        (
            "if L1 xs, L2 xs then L1 s, L2 s end",
            "0 - - 0:Q1 L1:s L2:s\n1 - - 0:Q1\n",
        ),
        // A false guard without `else` does nothing; with `else` it takes it.
        ("if L1 s then L2 s end", "0 - - 0:Q1\n1 - - 0:Q1\n"),
        (
            "if L1 s then L1 xs else L1 s end",
            "0 - - 0:Q1 L1:s\n1 - - 0:Q1 L1:xs\n",
        ),
        // A flag that changes and changes back isn't shown.
        ("L1 s, L2 s, L1 xs", "0 - - 0:Q1 L2:s\n1 - - 0:Q1\n"),
    ];
    let alloc = rt.alloc();
    for (body, output) in cases {
        let layout = layout_with(alloc, body)?;
        let script = "file RUN panel 0 Q1 . panel 0 Q1 . cycle 2 .";
        expect_rows(&rt, alloc, &[(layout.as_str(), script, 0, output)])?;
    }
    Ok(())
}

/// A layout in which points, a signal, a track, a sub-route and two modules have faults.
const FIVE_FAULTS: &str =
    "file PTS\nP1 over T1 .\nfile SIG\nS1 .\nfile TCS\nT1 .\nfile RTE\nfile SUB\nU1 on T2 with P1 cr, P1 cn .\nfile FLG\nfile TFM\n1 points P1 at 0 .\n64 track T1 at 8 .\nfile PRR\nfile PFM\nfile FOP\nfile OPT\nfile IPT\n";

/// The flags of which one is declared twice, and a request of a wrong word and an unknown flag.
const THREE_FAULTS: &str =
    "file PTS\nfile SIG\nfile TCS\nfile RTE\nfile SUB\nfile FLG\nL1 .\nL1 .\nfile TFM\nfile PRR\nQ1 if L1 c then L7 s end .\nQ2 L1 s .\nfile PFM\nfile FOP\nfile OPT\nfile IPT\n";

/// A layout of one flag with this name, on line 7.
fn layout_of_flag(alloc: Global, name: &str) -> Result<String, Fail> {
    Ok(format!(in alloc;
        "file PTS\nfile SIG\nfile TCS\nfile RTE\nfile SUB\nfile FLG\n{name} .\nfile TFM\nfile PRR\nfile PFM\nfile FOP\nfile OPT\nfile IPT\n"
    )?)
}

/// The flags, of which the first request lacks its `end`.
const WITHOUT_END: &str =
    "file PTS\nfile SIG\nfile TCS\nfile RTE\nfile SUB\nfile FLG\nL1 .\nL2 .\nfile TFM\nfile PRR\nQ1 if L1 s then L2 s .\nQ2 L1 s .\nfile PFM\nfile FOP\nfile OPT\nfile IPT\n";

/// A layout of one flag and a request, on line 10, whose guard opens these groups and closes eight.
fn layout_of_groups(alloc: Global, opened: &str) -> Result<String, Fail> {
    Ok(format!(in alloc;
        "file PTS\nfile SIG\nfile TCS\nfile RTE\nfile SUB\nfile FLG\nL1 .\nfile TFM\nfile PRR\nQ1 if {opened}L1 s or L1 s)or L1 s)or L1 s)or L1 s)or L1 s)or L1 s)or L1 s)or L1 s)then L1 s end .\nfile PFM\nfile FOP\nfile OPT\nfile IPT\n"
    )?)
}

/// A junction with all of its rules, of which line 14 is the entry of this sub-route.
fn junction_with(alloc: Global, sub: &str) -> Result<String, Fail> {
    Ok(format!(in alloc;
        "file PTS\nP1 over T2 .\nfile SIG\nS1 .\nS2 .\nfile TCS\nT1 .\nT2 .\nT3 .\n\
        file RTE\nR1 from S1 by U1, U2 .\nR2 from S2 by U3, U4 .\n\
        file SUB\n{sub}\nU2 on T3 .\nU3 on T3 .\nU4 on T2 with P1 cr .\nfile FLG\n\
        file TFM\n1 points P1 at 0 .\n2 signal S1 at 0, S2 at 1 .\n3 track T1 at 0, T2 at 1, T3 at 2 .\n\
        file PRR\nQ1 if R1 a, P1 crf, U3 f, U4 f then R1 s, P1 cr, U1 l, U2 l end .\n\
        Q2 if R2 a, P1 crf, U1 f, U2 f then R2 s, P1 cr, U3 l, U4 l end .\nQ3 if P1 cnf then P1 cn end .\n\
        file PFM\nP1 cn if T2 c, U1 f, U4 f .\nP1 cr if T2 c .\n\
        file FOP\nU1 f if R1 xs, T2 c .\nU2 f if U1 f, T3 c .\nU3 f if R2 xs, T3 c .\nU4 f if U3 f, T2 c .\n\
        R1 xs if T2 o, U1 l .\nR2 xs if T3 o, U3 l .\n\
        file OPT\n1 bit 0 if P1 cn bit 1 if P1 cr .\n\
        2 bit 0 if R1 s, U1 l, U2 l, P1 dr, T2 c, T3 c bit 1 if R2 s, U3 l, U4 l, P1 dr, T2 c, T3 c .\n\
        file IPT\n1 if 0 h then P1 dn else P1 xdn end, if 1 h then P1 dr else P1 xdr end .\n\
        2 if 0 h then S1 lp else S1 xlp end, if 1 h then S2 lp else S2 xlp end .\n\
        3 if 0 h then T1 c else T1 o end, if 1 h then T2 c else T2 o end, if 2 h then T3 c else T3 o end .\n"
    )?)
}

#[test]
fn every_fault_of_a_layout_is_listed(rt: HostRuntime) -> Result<(), Fail> {
    let alloc = rt.alloc();
    let points_twice = junction_with(alloc, "U1 on T2 with P1 cr, P1 cn .")?;
    let nine_groups = layout_of_groups(alloc, "(((((((((")?;
    let long = layout_of_flag(alloc, "LAAAAAAAAAAAAAAAA")?;
    let cases = [
        (
            FIVE_FAULTS,
            "fault 4:1 N8 S1\nfault 9:7 N1 T2\nfault 9:22 N12 P1\nfault 13:1 N7 64\nfault 13:16 N7 8\n",
        ),
        (
            THREE_FAULTS,
            "fault 8:1 N2 L1\nfault 11:10 N3 c\nfault 11:17 N1 L7\n",
        ),
        (points_twice.as_str(), "fault 14:22 N12 P1\n"),
        (long.as_str(), "fault 7:1 L2\n"),
        (WITHOUT_END, "fault 11:22 S1\n"),
        (nine_groups.as_str(), "fault 10:15 S2\n"),
        ("file PTS", "fault 1:9 S1\n"),
        ("file PTS file SIG #", "fault 1:19 L1\n"),
        ("", "fault 1:1 S1\n"),
    ];
    for (layout, output) in cases {
        expect_rows(&rt, alloc, &[(layout, "", 1, output)])?;
    }
    Ok(())
}

#[test]
fn fault_of_a_script_ends_the_output(rt: HostRuntime) -> Result<(), Fail> {
    let rows = [
        // No step is spelled so.
        (FLAGS, "file RUN panel 1 Q1 .", 7, "fault 17:16 R1\n"),
        (FLAGS, "file RUN panel 0 .", 7, "fault 17:18 R1\n"),
        (FLAGS, "file RUN cycle 0 .", 7, "fault 17:16 R1\n"),
        (FLAGS, "file RUN cycle 01 .", 7, "fault 17:16 R1\n"),
        (FLAGS, "file RUN cycle 12345678 .", 7, "fault 17:16 R1\n"),
        (FLAGS, "file RUN wait 1 .", 7, "fault 17:10 R1\n"),
        (FLAGS, "file RUN raw 1 0 0 0 256 .", 7, "fault 17:22 R1\n"),
        // More is needed at the end of the text.
        (FLAGS, "file RUN cycle 1", 7, "fault 17:17 R1\n"),
        (
            FLAGS,
            "file RUN panel 0 Q1 . cycle 1\n",
            7,
            "fault 18:1 R1\n",
        ),
        // The text goes on with no token.
        (
            FLAGS,
            "file RUN cycle 1 . \u{e9}",
            7,
            "0 - - -\nfault 17:20 R1\n",
        ),
        (FLAGS, "file RUN cycle \u{e9}", 7, "fault 17:16 R1\n"),
        // There is no script.
        (FLAGS, "file RUM cycle 1 .", 7, "fault 17:6 R1\n"),
        (FLAGS, "file", 7, "fault 17:5 R1\n"),
        (FLAGS, "", 7, "fault 17:1 R1\n"),
        // A name that isn't declared, one of another kind, and addresses without a module.
        (FLAGS, "file RUN panel 0 Q9 .", 7, "fault 17:18 R2 Q9\n"),
        (FLAGS, "file RUN panel 0 L1 .", 7, "fault 17:18 R3 L1\n"),
        (FLAGS, "file RUN dead 1 .", 7, "fault 17:15 R2 1\n"),
        (ONE_TRACK, "file RUN dead 2 .", 7, "fault 16:15 R2 2\n"),
        (ONE_TRACK, "file RUN occupy T2 .", 7, "fault 16:17 R2 T2\n"),
        (ONE_TRACK, "file RUN fail T1 .", 7, "fault 16:15 R3 T1\n"),
        // More minor cycles than a script may make.
        (
            FLAGS,
            "file RUN cycle 1000001 .",
            7,
            "fault 17:16 R4 1000001\n",
        ),
        // The steps before the fault are done, and none behind it.
        (
            FLAGS,
            "file RUN panel 0 Q2 . cycle 1 . panel 0 Q9 . cycle 1 .",
            7,
            "0 - - 0:Q2 L1:s\nfault 17:41 R2 Q9\n",
        ),
    ];
    expect_rows(&rt, rt.alloc(), &rows)
}

#[test]
fn longest_name_and_deepest_group(rt: HostRuntime) -> Result<(), Fail> {
    let alloc = rt.alloc();
    let longest = layout_of_flag(alloc, "LAAAAAAAAAAAAAAA")?;
    let deepest = layout_of_groups(alloc, "((((((((")?;
    let rows = [
        (longest.as_str(), "file RUN cycle 1 .", 0, "0 - - -\n"),
        (deepest.as_str(), "file RUN cycle 1 .", 0, "0 - - -\n"),
    ];
    expect_rows(&rt, alloc, &rows)
}

/// A layout of so many flags and so many requests, each of which sets the first flag.
fn layout_of(alloc: Global, flags: usize, requests: usize) -> Result<String, Fail> {
    let mut text = String::from_str(
        alloc,
        "file PTS file SIG file TCS file RTE file SUB file FLG ",
    )?;
    for flag in 0..flags {
        text.push_str(format!(in alloc; "L{flag} . ")?.as_str())?;
    }
    text.push_str("file TFM file PRR ")?;
    for request in 0..requests {
        text.push_str(format!(in alloc; "Q{request} L0 s . ")?.as_str())?;
    }
    text.push_str("file PFM file FOP file OPT file IPT ")?;
    Ok(text)
}

#[test]
fn flags_and_requests_at_their_limits(rt: HostRuntime) -> Result<(), Fail> {
    let alloc = rt.alloc();
    let script = "file RUN panel 0 Q0 . cycle 1 .";
    let cases = [
        (512, 1024, 0, "0 - - 0:Q0 L0:s\n"),
        (513, 1, 1, "fault 1:3529 N11 L512\n"),
        (1, 1025, 1, "fault 1:12280 N11 Q1024\n"),
    ];
    for (flags, requests, status, output) in cases {
        let layout = layout_of(alloc, flags, requests)?;
        expect_rows(&rt, alloc, &[(layout.as_str(), script, status, output)])?;
    }
    Ok(())
}

#[test]
fn a_million_minor_cycles_at_most(rt: HostRuntime) -> Result<(), Fail> {
    let alloc = rt.alloc();
    let mut shelf = make_shelf!(alloc);
    let script = "file RUN cycle 999999 . cycle 1 .";
    let (status, written) = run(&rt, alloc, EMPTY, script, &mut shelf)?;
    assert_eq!(rt; status, 0);
    // A line has the digits of its number and seven bytes more.
    assert_eq!(rt; written.len(), 5_888_890 + 7_000_000);
    let script = "file RUN cycle 1 . cycle 1000000 .";
    let output = "0 - - -\nfault 13:26 R4 1000000\n";
    expect_rows(&rt, alloc, &[(EMPTY, script, 7, output)])
}

#[test]
fn sixty_four_requests_wait(rt: HostRuntime) -> Result<(), Fail> {
    let alloc = rt.alloc();
    let mut script = String::from_str(alloc, "file RUN ")?;
    for _put in 0..65 {
        script.push_str("panel 0 Q2 . ")?;
    }
    expect_rows(&rt, alloc, &[(FLAGS, script.as_str(), 0, "full 0 Q2\n")])
}

/// The answer to words over an input of which each read fails.
fn answer_unread(
    rt: &impl Abort,
    alloc: Global,
    words: &[&str],
    shelf: &mut Vec<Box<dyn Trackside>>,
) -> Result<(u8, Vec<u8>), Fail> {
    assert!(rt; is_shelf(shelf));
    let mut line = Vec::new(alloc);
    for word in words {
        line.push(String::from_str(alloc, word)?)?;
    }
    let mut source = MemSource::new(Vec::new(alloc), 1, vec![in alloc; 0]?);
    let mut sink = MemSink::new(alloc, 100, 8, Vec::new(alloc))?;
    let status = ssi_program(alloc, line.as_slice(), &mut source, &mut sink, shelf);
    Ok((status, Vec::from_slice(alloc, sink.written())?))
}

#[test]
fn words_without_a_shape_read_nothing(rt: HostRuntime) -> Result<(), Fail> {
    let alloc = rt.alloc();
    let mut shelf = make_shelf!(alloc);
    let answers = [
        answer_unread(&rt, alloc, &[], &mut shelf)?,
        answer_unread(&rt, alloc, &["walk"], &mut shelf)?,
        answer_unread(&rt, alloc, &["run", "1"], &mut shelf)?,
        answer_unread(&rt, alloc, &[""], &mut shelf)?,
    ];
    for (status, written) in answers {
        assert_eq!(rt; status, 2);
        assert_eq!(rt; written.as_slice(), USAGE);
    }
    let (status, _) = answer_unread(&rt, alloc, &["run"], &mut shelf)?;
    assert_eq!(rt; status, 3);
    Ok(())
}

#[test]
fn input_past_the_limit(rt: HostRuntime) -> Result<(), Fail> {
    let alloc = rt.alloc();
    let cases = [
        (2_097_152, 1, b"fault 1:2097153 S1\n".as_slice()),
        (2_097_153, 9, TOO_LARGE),
    ];
    let mut shelf = make_shelf!(alloc);
    for (bytes, expected, output) in cases {
        let spaces = vec![in alloc; b' '; bytes]?;
        let (status, written) = answer(&rt, alloc, &["run"], spaces, &mut shelf)?;
        assert_eq!(rt; status, expected, "{bytes}");
        assert_eq!(rt; written.as_slice(), output, "{bytes}");
    }
    Ok(())
}
