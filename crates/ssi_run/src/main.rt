//! The interlocking's program: it reads a layout and a script, and writes what the interlocking does,
//! minor cycle by minor cycle.
//!
//! [`program::ssi_program`] is the whole of it; its contract says what is written and what each status
//! means. `main` makes the real input and output and calls it.
#![tactic(auto)]

mod command_line;
#[cfg(test)]
mod edge_tests;
mod exchange;
#[cfg(test)]
mod failing_tests;
mod fault_lines;
mod input;
#[cfg(test)]
mod layout_tests;
mod marks;
mod output;
#[cfg(test)]
mod packed_tests;
mod program;
#[cfg(test)]
mod script_tests;
mod session;
mod status;
#[cfg(test)]
mod tests;
#[cfg(test)]
mod whole_runs;
mod words;

use crate::command_line::command_words;
use crate::output::{end_output, writer_below};
use crate::program::ssi_program;
use crate::status::Failure;
use ssi_base::{StdSink, StdSource};
use ssi_trackside::{PointsModule, SignalModule, TrackModule, Trackside, is_shelf};
use std::io::{self, BufWriter};
use std::process::ExitCode;

fn main(rt: HostRuntime) -> ExitCode {
    let alloc = rt.alloc();
    let no_memory = ExitCode::from(Failure::Memory.number());
    let Ok(words) = command_words(&rt, alloc) else {
        return no_memory;
    };
    let mut shelf: Vec<Box<dyn Trackside>> = Vec::new(alloc);
    for _address in 1..64 {
        let Ok(points) = Box::new(alloc, PointsModule::new()) else {
            return no_memory;
        };
        let Ok(signal) = Box::new(alloc, SignalModule::new()) else {
            return no_memory;
        };
        let Ok(track) = Box::new(alloc, TrackModule::new()) else {
            return no_memory;
        };
        if shelf.push(points).is_err()
            || shelf.push(signal).is_err()
            || shelf.push(track).is_err()
        {
            return no_memory;
        }
    }
    // What was pushed is such a shelf; this tells the call below.
    if !is_shelf(&shelf) {
        return no_memory;
    }
    let Ok(writer) = BufWriter::new(alloc, io::writer(&rt)) else {
        return no_memory;
    };
    let mut source = StdSource::new(rt.reader());
    let mut sink = StdSink::new(writer);
    let status = ssi_program(alloc, words.as_slice(), &mut source, &mut sink, &mut shelf);
    let status = end_output(&mut sink, status);
    let _writer = writer_below(sink);
    ExitCode::from(status)
}
