//! A source and a sink that fail at each of their calls, over the junction.

use crate::layout_tests::JUNCTION;
use crate::program::ssi_program;
use crate::whole_runs::{make_shelf, run};
use ssi_base::{MemSink, MemSource};
use ssi_trackside::{PointsModule, SignalModule, TrackModule, Trackside, is_shelf};
use std::alloc::Global;
use std::process::Abort;
use std::test::Fail;

/// A train over the junction, with a request that finds no room and a fault at the end.
const SCRIPT: &str =
    "file RUN cycle 64 . panel 0 Q1 . cycle 256 . occupy T2 . cycle 64 . lose 3 . cycle 64 . panel 0 Q4 .";

/// The status of the run where these reads fail, of pieces of 64 bytes.
fn run_over(
    rt: &impl Abort,
    alloc: Global,
    reads: Vec<u64>,
    sink: &mut MemSink,
    shelf: &mut Vec<Box<dyn Trackside>>,
) -> Result<u8, Fail> {
    assert!(rt; is_shelf(shelf));
    let input = format!(in alloc; "{JUNCTION}{SCRIPT}")?;
    let mut words = Vec::new(alloc);
    words.push(String::from_str(alloc, "run")?)?;
    let mut source = MemSource::new(Vec::from_slice(alloc, input.as_bytes())?, 64, reads);
    Ok(ssi_program(alloc, words.as_slice(), &mut source, sink, shelf))
}

#[test]
fn failing_source_over_the_junction(rt: HostRuntime) -> Result<(), Fail> {
    let alloc = rt.alloc();
    let mut calls = 0;
    for call in 0..100 {
        let mut shelf = make_shelf!(alloc);
        let mut sink = MemSink::new(alloc, 100_000, 100_000, Vec::new(alloc))?;
        let status = run_over(&rt, alloc, vec![in alloc; call]?, &mut sink, &mut shelf)?;
        if status != 7 {
            assert_eq!(rt; status, 3, "{call}");
            assert_eq!(rt; sink.written().len(), 0, "{call}");
            assert_eq!(rt; call, calls);
            calls += 1;
        }
    }
    // 1,150 bytes in pieces of 64 take 18 reads, and one more finds the end.
    assert_eq!(rt; calls, 19);
    Ok(())
}

#[test]
fn failing_sink_over_the_junction(rt: HostRuntime) -> Result<(), Fail> {
    let alloc = rt.alloc();
    let mut shelf = make_shelf!(alloc);
    let (status, whole) = run(&rt, alloc, JUNCTION, SCRIPT, &mut shelf)?;
    assert_eq!(rt; status, 7);
    let mut before = 0;
    for call in 0..4000 {
        let mut shelf = make_shelf!(alloc);
        let mut sink = MemSink::new(alloc, 100_000, 100_000, vec![in alloc; call]?)?;
        let status = run_over(&rt, alloc, Vec::new(alloc), &mut sink, &mut shelf)?;
        let written = sink.written();
        assert!(rt; whole.starts_with(written), "{call}");
        if status == 7 {
            assert_eq!(rt; written.len(), whole.len(), "{call}");
            // Each of 448 lines takes a piece at least.
            assert!(rt; call > 448);
            return Ok(());
        }
        assert_eq!(rt; status, 4, "{call}");
        assert!(rt; call == 0 || written.len() > before, "{call}");
        before = written.len();
    }
    Err("the answer was never whole")?
}
