//! What the tests of whole runs share: the modules, and the program over memory.

use crate::program::ssi_program;
use ssi_base::{MemSink, MemSource};
use ssi_trackside::{PointsModule, SignalModule, TrackModule, Trackside, is_shelf};
use std::alloc::Global;
use std::process::Abort;
use std::test::Fail;

/// A full shelf of fresh modules: for each address its points, its signal and its track.
macro_rules! make_shelf {
    ($alloc:expr) => {{
        let mut shelf: Vec<Box<dyn Trackside>> = Vec::new($alloc);
        for _address in 1..64 {
            shelf.push(Box::new($alloc, PointsModule::new())?)?;
            shelf.push(Box::new($alloc, SignalModule::new())?)?;
            shelf.push(Box::new($alloc, TrackModule::new())?)?;
        }
        shelf
    }};
}

pub(crate) use make_shelf;

/// The status that the words end with over this input and a fresh shelf, and what is written.
pub fn answer(
    rt: &impl Abort,
    alloc: Global,
    words: &[&str],
    input: Vec<u8>,
    shelf: &mut Vec<Box<dyn Trackside>>,
) -> Result<(u8, Vec<u8>), Fail> {
    assert!(rt; is_shelf(shelf));
    let mut line = Vec::new(alloc);
    for word in words {
        line.push(String::from_str(alloc, word)?)?;
    }
    let mut source = MemSource::new(input, 65_536, Vec::new(alloc));
    let mut sink = MemSink::new(alloc, 16_000_000, 4096, Vec::new(alloc))?;
    let status = ssi_program(alloc, line.as_slice(), &mut source, &mut sink, shelf);
    Ok((status, Vec::from_slice(alloc, sink.written())?))
}

/// The answer of `run` to a layout and a script.
pub fn run(
    rt: &impl Abort,
    alloc: Global,
    layout: &str,
    script: &str,
    shelf: &mut Vec<Box<dyn Trackside>>,
) -> Result<(u8, Vec<u8>), Fail> {
    let input = format!(in alloc; "{layout}{script}")?;
    let input = Vec::from_slice(alloc, input.as_bytes())?;
    answer(rt, alloc, &["run"], input, shelf)
}

/// A layout and a script, and the status and the output that `run` answers.
pub type Row<'a> = (&'a str, &'a str, u8, &'a str);

/// Runs each layout and script over a shelf of its own, and expects its status and output.
pub fn expect_rows(rt: &impl Abort, alloc: Global, rows: &[Row<'_>]) -> Result<(), Fail> {
    for (layout, script, status, output) in rows {
        let mut shelf = make_shelf!(alloc);
        let (ended, written) = run(rt, alloc, layout, script, &mut shelf)?;
        assert_eq!(rt; ended, *status, "{layout}{script}");
        assert_eq!(rt; written.as_slice(), output.as_bytes(), "{layout}{script}");
    }
    Ok(())
}
