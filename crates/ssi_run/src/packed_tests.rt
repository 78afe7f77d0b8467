//! Packed rules of layouts that are read from text: what a request does to a state, and a line that is made of a minor cycle.

use ssi_compiler::compile;
use ssi_cycle::Interlocking;
use ssi_eval::run_body;
use ssi_identities::fact_count;
use ssi_image::{BodyAt, Image};
use ssi_lexer::Tokens;
use ssi_names::{ResolveFault, read_source, resolve};
use ssi_script::cycle_line;
use ssi_state::State;
use std::alloc::Global;
use std::process::Abort;
use std::test::Fail;

/// A junction, without what goes out to its modules and what comes in.
const JUNCTION: &str = "file PTS\nP1 over T2 .\nfile SIG\nS1 .\nS2 .\nfile TCS\nT1 .\nT2 .\nT3 .\n\
    file RTE\nR1 from S1 by U1, U2 .\nR2 from S2 by U3, U4 .\n\
    file SUB\nU1 on T2 with P1 cr .\nU2 on T3 .\nU3 on T3 .\nU4 on T2 with P1 cr .\nfile FLG\n\
    file TFM\n1 points P1 at 0 .\n2 signal S1 at 0, S2 at 1 .\n3 track T1 at 0, T2 at 1, T3 at 2 .\n\
    file PRR\nQ1 if R1 a, P1 crf, U3 f, U4 f then R1 s, P1 cr, U1 l, U2 l end .\n\
    Q2 if R2 a, P1 crf, U1 f, U2 f then R2 s, P1 cr, U3 l, U4 l end .\nQ3 if P1 cnf then P1 cn end .\n\
    file PFM\nP1 cn if T2 c, U1 f, U4 f .\nP1 cr if T2 c .\n\
    file FOP\nU1 f if R1 xs, T2 c .\nU2 f if U1 f, T3 c .\nU3 f if R2 xs, T3 c .\nU4 f if U3 f, T2 c .\n\
    R1 xs if T2 o, U1 l .\nR2 xs if T3 o, U3 l .\nfile OPT\nfile IPT\n";

/// The image of a layout that has no faults.
pub fn image_of(rt: &impl Abort, alloc: Global, layout: &str) -> Result<Image, Fail> {
    let text = layout.as_bytes();
    assert!(rt; text.len() <= 2_097_152);
    let mut tokens = Tokens::new(text, 0);
    let tree = read_source(alloc, &mut tokens)?;
    match resolve(alloc, text, &tree) {
        Ok(plan) => Ok(compile(alloc, &plan)?),
        Err(ResolveFault::Faults(_)) => Err("faults")?,
        Err(ResolveFault::Memory) => Err("no memory")?,
    }
}

/// The numbers of the facts that are true after the first request, where these were made so in the state at the
/// start.
fn true_after(
    rt: &impl Abort,
    alloc: Global,
    image: &Image,
    made: &[(u16, bool)],
) -> Result<Vec<u16>, Fail> {
    let mut state = State::start(alloc, &image.counts())?;
    for (fact, value) in made {
        assert!(rt; *fact < state.len());
        state.set(*fact, *value);
    }
    let first = BodyAt::Request(0);
    assert!(rt; image.has_body(first));
    assert!(rt; state.len() == fact_count(&image.counts()));
    run_body(image, first, &mut state, 0);
    facts_in(alloc, &state)
}

/// The numbers of the facts that are true.
fn facts_in(alloc: Global, state: &State) -> Result<Vec<u16>, Fail> {
    let mut facts = Vec::new(alloc);
    for fact in 0..state.len() {
        if state.get(fact) {
            facts.push(fact)?;
        }
    }
    Ok(facts)
}

#[test]
fn first_route_of_a_junction_is_set(rt: HostRuntime) -> Result<(), Fail> {
    let alloc = rt.alloc();
    let image = image_of(&rt, alloc, JUNCTION)?;
    // With T2 clear: P1:cr, T1:o, T3:o, R1:s, U1:l and U2:l.
    let set = true_after(&rt, alloc, &image, &[(6, false)])?;
    assert_eq!(rt; set.as_slice(), [0, 5, 7, 8, 12, 13].as_slice());
    // With T2 occupied the points aren't free, and the tracks stay as they are.
    let kept = true_after(&rt, alloc, &image, &[])?;
    assert_eq!(rt; kept.as_slice(), [5, 6, 7].as_slice());
    Ok(())
}

/// A condition that holds where the innermost does, eight groups deep, with something to do behind each group.
fn in_eight_groups(alloc: Global, innermost: &str) -> Result<String, Fail> {
    let mut text = String::from_str(alloc, innermost)?;
    for _ in 0..8 {
        text = format!(in alloc; "({text} or L2 s), L2 xs")?;
    }
    Ok(text)
}

/// A body of eight choices in one another. It sets the first flag where the guard holds, and else resets it.
fn in_eight_choices(alloc: Global, guard: &str) -> Result<String, Fail> {
    let mut text = String::from_str(alloc, "L1 s")?;
    for _ in 0..8 {
        text = format!(in alloc; "if {guard} then {text} else L1 xs end, L2 xs")?;
    }
    Ok(text)
}

/// Points that are free to reverse by a condition eight groups deep, which are asked for eight groups deep in a guard
/// of each of eight choices.
fn deepest_layout(alloc: Global) -> Result<String, Fail> {
    let free = in_eight_groups(alloc, "T1 c")?;
    let guard = in_eight_groups(alloc, "P1 crf")?;
    let body = in_eight_choices(alloc, guard.as_str())?;
    Ok(format!(in alloc;
        "file PTS P1 over T1 . file SIG file TCS T1 . file RTE file SUB file FLG L1 . L2 . \
        file TFM 1 points P1 at 0 . 2 track T1 at 0 . file PRR Q1 {body} . \
        file PFM P1 cr if {free} . file FOP file OPT file IPT "
    )?)
}

#[test]
fn deepest_groups_choices_and_points(rt: HostRuntime) -> Result<(), Fail> {
    let alloc = rt.alloc();
    let layout = deepest_layout(alloc)?;
    let image = image_of(&rt, alloc, layout.as_str())?;
    // Facts: 0 P1 controlled reverse, 3 T1 occupied, 4 L1 set.
    let cases: [(&[(u16, bool)], &[u16]); 3] = [
        // The track is clear, so the points are free.
        (&[(3, false)], &[4]),
        // The track is occupied.
        (&[(4, true)], &[3]),
        // They lie reverse already.
        (&[(0, true)], &[0, 3, 4]),
    ];
    for (made, facts) in cases {
        let found = true_after(&rt, alloc, &image, made)?;
        assert_eq!(rt; found.as_slice(), facts);
    }
    Ok(())
}

#[test]
fn a_line_is_made_in_memory(rt: HostRuntime) -> Result<(), Fail> {
    let alloc = rt.alloc();
    let image = image_of(&rt, alloc, JUNCTION)?;
    let mut core = Interlocking::begin(alloc, image)?;
    assert!(rt; core.image().counts().requests > 0);
    assert!(rt; core.put(0, 0).is_ok());
    let did = core.minor_cycle(None);
    let out = Some([0x81, 0x01, 0xFE, 0x7E]);
    let arrived = Some([0x41, 0x05, 0xFA, 0xBE]);
    let line = cycle_line(alloc, 7, out, arrived, &did, &core)?;
    assert_eq!(rt; line.as_slice(), b"7 8101FE7E 4105FABE 0:Q1\n".as_slice());
    let did = core.minor_cycle(None);
    let line = cycle_line(alloc, 18_446_744_073_709_551_615, None, None, &did, &core)?;
    assert_eq!(rt; line.as_slice(), b"18446744073709551615 - - -\n".as_slice());
    Ok(())
}
