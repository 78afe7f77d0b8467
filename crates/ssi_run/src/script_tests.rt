//! Scripts with a fault: which fault is told, and where.

use crate::layout_tests::JUNCTION;
use crate::whole_runs::expect_rows;
use std::alloc::Global;
use std::process::Abort;
use std::test::Fail;

/// That scripts over the junction, on line 45, have a fault at their first step: at this column, with this code, and with what has it.
fn expect_faults(rt: &impl Abort, alloc: Global, cases: &[(&str, &str)]) -> Result<(), Fail> {
    for (script, fault) in cases {
        let steps = format!(in alloc; "file RUN\n{script}")?;
        let line = format!(in alloc; "fault 45:{fault}\n")?;
        expect_rows(rt, alloc, &[(JUNCTION, steps.as_str(), 7, line.as_str())])?;
    }
    Ok(())
}

#[test]
fn steps_that_are_misspelled(rt: HostRuntime) -> Result<(), Fail> {
    let cases = [
        // No word of a step comes.
        ("stand 0 T1 Q1 .", "1 R1"),
        ("walk .", "1 R1"),
        ("T1 .", "1 R1"),
        ("7 .", "1 R1"),
        (".", "1 R1"),
        ("  ,", "3 R1"),
        // A put: its panel, which is 0, its request and its dot.
        ("panel", "6 R1"),
        ("panel .", "7 R1"),
        ("panel Q1 .", "7 R1"),
        ("panel 1 Q1 .", "7 R1"),
        ("panel 4 Q1 .", "7 R1"),
        ("panel 0", "8 R1"),
        ("panel 0 .", "9 R1"),
        ("panel 0 0 .", "9 R1"),
        ("panel 0 cycle .", "9 R1"),
        ("panel 0 Q1", "11 R1"),
        ("panel 0 Q1 Q1 .", "12 R1"),
        ("panel 0 Q1,", "11 R1"),
        // Minor cycles: their count, which is 1 at least, and the dot.
        ("cycle", "6 R1"),
        ("cycle .", "7 R1"),
        ("cycle Q1 .", "7 R1"),
        ("cycle 0 .", "7 R1"),
        ("cycle one .", "7 R1"),
        ("cycle 1", "8 R1"),
        ("cycle 1 1 .", "9 R1"),
        // What happens to an identity: its name and the dot.
        ("occupy", "7 R1"),
        ("occupy .", "8 R1"),
        ("clear 1 .", "7 R1"),
        ("fail fail .", "6 R1"),
        ("mend S1", "8 R1"),
        ("jam P1 P1 .", "8 R1"),
        ("unjam P1 at 0 .", "10 R1"),
        // What becomes of a module: its address and the dot.
        ("dead", "5 R1"),
        ("dead .", "6 R1"),
        ("live T1 .", "6 R1"),
        ("lose 1", "7 R1"),
        ("drop 1 1 .", "8 R1"),
        // Four bytes in place of a report: the address, each of the bytes, and the dot.
        ("raw", "4 R1"),
        ("raw .", "5 R1"),
        ("raw P1 0 0 0 0 .", "5 R1"),
        ("raw 1 .", "7 R1"),
        ("raw 1 256 0 0 0 .", "7 R1"),
        ("raw 1 0 256 0 0 .", "9 R1"),
        ("raw 1 0 0 256 0 .", "11 R1"),
        ("raw 1 0 0 0 256 .", "13 R1"),
        ("raw 1 0 Q1 0 0 .", "9 R1"),
        ("raw 1 0 0 0 .", "13 R1"),
        ("raw 1 0 0 0 0", "14 R1"),
        ("raw 1 0 0 0 0 0 .", "15 R1"),
    ];
    expect_faults(&rt, rt.alloc(), &cases)
}

#[test]
fn characters_that_are_no_token(rt: HostRuntime) -> Result<(), Fail> {
    let cases = [
        ("#", "1 R1"),
        ("cycle #", "7 R1"),
        ("cycle 1 #", "9 R1"),
        ("cycle 01 .", "7 R1"),
        ("cycle 10000000 .", "7 R1"),
        ("panel 0 QAAAAAAAAAAAAAAAA .", "9 R1"),
        // The first token that fits nothing stands before it.
        ("cycle cycle #", "7 R1"),
    ];
    expect_faults(&rt, rt.alloc(), &cases)
}

#[test]
fn names_and_addresses_that_mean_nothing(rt: HostRuntime) -> Result<(), Fail> {
    let cases = [
        ("panel 0 Q9 .", "9 R2 Q9"),
        ("panel 0 Q .", "9 R2 Q"),
        ("panel 0 T1 .", "9 R3 T1"),
        ("occupy T9 .", "8 R2 T9"),
        ("occupy S1 .", "8 R3 S1"),
        ("clear T4 .", "7 R2 T4"),
        ("clear P1 .", "7 R3 P1"),
        ("fail S3 .", "6 R2 S3"),
        ("fail T1 .", "6 R3 T1"),
        ("mend S .", "6 R2 S"),
        ("mend U1 .", "6 R3 U1"),
        ("jam P2 .", "5 R2 P2"),
        ("jam S1 .", "5 R3 S1"),
        ("unjam P-1 .", "7 R2 P-1"),
        ("unjam Q1 .", "7 R3 Q1"),
        ("dead 4 .", "6 R2 4"),
        ("dead 0 .", "6 R2 0"),
        ("live 63 .", "6 R2 63"),
        ("lose 64 .", "6 R2 64"),
        ("drop 257 .", "6 R2 257"),
        ("drop 9999999 .", "6 R2 9999999"),
        ("raw 4 0 0 0 0 .", "5 R2 4"),
    ];
    expect_faults(&rt, rt.alloc(), &cases)
}

#[test]
fn one_step_has_one_fault(rt: HostRuntime) -> Result<(), Fail> {
    let cases = [
        // The step is spelled as a whole before its names are looked at.
        ("panel 0 T9", "11 R1"),
        ("panel 1 T9 .", "7 R1"),
        ("raw 4 0 0 0 256 .", "13 R1"),
        ("occupy S9 S9 .", "11 R1"),
        ("cycle 1000001", "14 R1"),
        // A name of another kind isn't looked up.
        ("panel 0 T9 .", "9 R3 T9"),
        ("jam T9 .", "5 R3 T9"),
        // Too many minor cycles.
        ("cycle 1000001 .", "7 R4 1000001"),
        ("cycle 9999999 .", "7 R4 9999999"),
        // The first step's fault is told, and no other.
        ("panel 0 Q9 . panel 0 T1 .", "9 R2 Q9"),
        ("panel 0 T1 . cycle", "9 R3 T1"),
        ("cycle 1000001 . walk .", "7 R4 1000001"),
    ];
    expect_faults(&rt, rt.alloc(), &cases)
}

#[test]
fn faulty_step_after_good_ones(rt: HostRuntime) -> Result<(), Fail> {
    let cases = [
        // In the middle, and in the last step.
        (
            "file RUN\ncycle 1 . panel 0 Q9 . cycle 1 .",
            "0 - - -\nfault 45:19 R2 Q9\n",
        ),
        (
            "file RUN\npanel 0 Q1 . cycle 1 . occupy T2 . fail T2 .",
            "0 - - 0:Q1\nfault 45:41 R3 T2\n",
        ),
        // Behind the last step.
        ("file RUN\ncycle 1 . x", "0 - - -\nfault 45:11 R1\n"),
        ("file RUN\ncycle 1 . .", "0 - - -\nfault 45:11 R1\n"),
        ("file RUN\ncycle 1 . \u{e9}", "0 - - -\nfault 45:11 R1\n"),
        ("file RUN\ncycle 1 .\nfile RUN", "0 - - -\nfault 46:1 R1\n"),
        // The count of a step with the counts before it.
        (
            "file RUN\ncycle 2 . cycle 999999 .",
            "0 - - -\n1 8101FE7E 4105FABE - P1:dn\nfault 45:17 R4 999999\n",
        ),
        // No script, or another file.
        ("", "fault 44:1 R1\n"),
        ("file", "fault 44:5 R1\n"),
        ("file RUM cycle 1 .", "fault 44:6 R1\n"),
        ("file 1", "fault 44:6 R1\n"),
        ("file #", "fault 44:6 R1\n"),
    ];
    for (script, output) in cases {
        expect_rows(&rt, rt.alloc(), &[(JUNCTION, script, 7, output)])?;
    }
    Ok(())
}

#[test]
fn scripts_without_minor_cycles(rt: HostRuntime) -> Result<(), Fail> {
    let cases = [
        "file RUN",
        "file RUN / nothing more\n",
        "file RUN panel 0 Q1 . occupy T1 . clear T1 . fail S1 . mend S1 . jam P1 . unjam P1 .",
        "file RUN dead 1 . live 1 . lose 1 . drop 1 . raw 1 0 255 0 255 .",
    ];
    for script in cases {
        expect_rows(&rt, rt.alloc(), &[(JUNCTION, script, 0, "")])?;
    }
    Ok(())
}
