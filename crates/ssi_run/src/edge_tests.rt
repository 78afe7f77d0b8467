//! The edges of the program: the words that the system gives, and an output that fails at one call.

use crate::command_line::command_words;
use crate::output::{end_output, writer_below};
use crate::program::ssi_program;
use ssi_base::{MemSink, MemSource, StdSink};
use ssi_trackside::{PointsModule, SignalModule, TrackModule, Trackside, is_shelf};
use std::alloc::Global;
use std::cell::Cell;
use std::env::FillError;
use std::io::{self, BufWriter, ErrorKind, Write};
use std::process::Abort;
use std::rt::Env;
use std::test::Fail;

/// A word longer than any of a shape.
const LONG: &[u8] = &[b'r'; 5000];

/// A command line under a name that isn't UTF-8, which counts how often it is asked for that name.
#[derive(Drop)]
struct CommandLine {
    words: &'static [&'static [u8]],
    asked_for_name: Cell<u32>,
}

impl Env for CommandLine {
    fn arg(&self, i: usize, buf: &mut [u8]) -> Result<usize, FillError> {
        let word = if i == 0 {
            let asked = self.asked_for_name.get();
            self.asked_for_name.set(asked.saturating_add(1));
            b"\xff".as_slice()
        } else {
            match self.words.get(i - 1) {
                Some(word) => *word,
                None => return Err(FillError::NotPresent),
            }
        };
        if word.len() > buf.len() {
            return Err(FillError::TooLong);
        }
        buf[..word.len()].copy_from_slice(word);
        Ok(word.len())
    }

    fn var(&self, _name: &str, _buf: &mut [u8]) -> Result<usize, FillError> {
        Err(FillError::NotPresent)
    }

    fn var_at(&self, _i: usize, _buf: &mut [u8]) -> Result<usize, FillError> {
        Err(FillError::NotPresent)
    }
}

#[test]
fn words_that_may_have_a_shape(rt: HostRuntime) -> Result<(), Fail> {
    let alloc = rt.alloc();
    let cases: [(&[&[u8]], &[&str]); 13] = [
        (&[], &[]),
        (&[b"run"], &["run"]),
        (&[b"compile"], &["compile"]),
        (&[b""], &[""]),
        (&[b"run", b"--last", b"10000"], &["run", "--last", "10000"]),
        (&[b"yard", b"\xe2\x82\xac"], &["yard", "\u{20ac}"]),
        // A word longer than any, of which none counts, nor those before it.
        (&[LONG], &[]),
        (&[b"run", LONG], &[]),
        (&[b"compiled"], &[]),
        // A word that isn't UTF-8.
        (&[b"\xff"], &[]),
        (&[b"run", b"\xff"], &[]),
        // More words than any shape has.
        (&[b"run", b"--last", b"10000", b""], &[]),
        (&[b"a", b"b", b"c", b"d", b"e", b"f"], &[]),
    ];
    for (words, expected) in cases {
        let line = CommandLine {
            words,
            asked_for_name: Cell::new(0),
        };
        let given = command_words(&line, alloc)?;
        assert_eq!(rt; given.len(), expected.len());
        for (word, wanted) in given.iter().zip(expected) {
            assert_eq!(rt; word.as_str(), *wanted);
        }
        assert_eq!(rt; line.asked_for_name.get(), 0);
    }
    Ok(())
}

/// A writer that takes a few bytes at a time, and fails at one call alone. It knows how many calls
/// came, and how many bytes stood before each.
#[derive(Drop)]
struct FailsOnce {
    fails_at: usize,
    calls: usize,
    stood: Vec<usize>,
    bytes: Vec<u8>,
}

impl FailsOnce {
    fn called(&mut self) -> io::Result<()> {
        let call = self.calls;
        self.calls = call.saturating_add(1);
        self.stood.push(self.bytes.len())?;
        if call == self.fails_at {
            Err(io::Error::from(ErrorKind::BrokenPipe))
        } else {
            Ok(())
        }
    }
}

impl Write for FailsOnce {
    fn write(&mut self, buf: &[u8]) -> io::Result<usize> {
        self.called()?;
        let count = buf.len().min(5);
        self.bytes.extend_from_slice(&buf[..count])?;
        Ok(count)
    }

    fn flush(&mut self) -> io::Result<()> {
        self.called()
    }
}

const LAYOUT: &[u8] =
    b"file PTS file SIG file TCS file RTE file SUB file FLG L1 . L2 . file TFM file PRR Q1 if L1 s then L2 s end . Q2 L1 s . file PFM file FOP file OPT file IPT file RUN panel 0 Q1 . cycle 1 . panel 0 Q2 . panel 0 Q1 . cycle 2 .";

const TRACE: &[u8] = b"0 - - 0:Q1\n1 - - 0:Q2 L1:s\n2 - - 0:Q1 L2:s\n";

/// A full shelf of fresh modules: for each address its points, its signal and its track.
macro_rules! make_shelf {
    ($alloc:expr) => {{
        let mut shelf: Vec<Box<dyn Trackside>> = Vec::new($alloc);
        for _address in 1..64 {
            shelf.push(Box::new($alloc, PointsModule::new())?)?;
            shelf.push(Box::new($alloc, SignalModule::new())?)?;
            shelf.push(Box::new($alloc, TrackModule::new())?)?;
        }
        shelf
    }};
}

/// The status that the program ends with over this writer.
fn run_over(
    rt: &impl Abort,
    alloc: Global,
    capacity: usize,
    writer: &mut FailsOnce,
) -> Result<u8, Fail> {
    let mut shelf = make_shelf!(alloc);
    assert!(rt; is_shelf(&shelf));
    let mut words = Vec::new(alloc);
    words.push(String::from_str(alloc, "run")?)?;
    let mut source = MemSource::new(LAYOUT.to_vec(alloc)?, 64, Vec::new(alloc));
    let mut sink = StdSink::new(BufWriter::with_capacity(alloc, capacity, writer)?);
    let status = ssi_program(alloc, words.as_slice(), &mut source, &mut sink, &mut shelf);
    let status = end_output(&mut sink, status);
    let _writer = writer_below(sink);
    Ok(status)
}

fn fails_at(alloc: Global, call: usize) -> FailsOnce {
    FailsOnce {
        fails_at: call,
        calls: 0,
        stood: Vec::new(alloc),
        bytes: Vec::new(alloc),
    }
}

#[test]
fn nothing_goes_out_after_a_failure(rt: HostRuntime) -> Result<(), Fail> {
    let alloc = rt.alloc();
    for capacity in [0, 8, 8192] {
        let mut whole = fails_at(alloc, usize::MAX);
        assert_eq!(rt; run_over(&rt, alloc, capacity, &mut whole)?, 0);
        assert_eq!(rt; whole.bytes.as_slice(), TRACE);
        for (call, stood) in whole.stood.iter().enumerate() {
            let mut writer = fails_at(alloc, call);
            assert_eq!(rt;
                run_over(&rt, alloc, capacity, &mut writer)?,
                4,
                "{capacity} {call}"
            );
            assert_eq!(rt;
                writer.calls.checked_sub(1),
                Some(call),
                "{capacity} {call}"
            );
            assert_eq!(rt;
                Some(writer.bytes.as_slice()),
                TRACE.get(..*stood),
                "{capacity} {call}"
            );
        }
    }
    Ok(())
}

/// The input and the output of the stored run.
const STORED_INPUT: &[u8] =
    b"file PTS\nfile SIG\nfile TCS\nfile RTE\nfile SUB\nfile FLG\nL1 .\nL2 .\nfile TFM\nfile PRR\nQ1 if L1 s then L2 s end .\nQ2 L1 s .\nfile PFM\nfile FOP\nfile OPT\nfile IPT\nfile RUN\npanel 0 Q1 . cycle 1 . panel 0 Q2 . panel 0 Q1 . cycle 2 .\n";

/// The pieces in which the output is written.
const STORED_OUTPUT: [&str; 32] = [
    "0", " -", " -", " ", "0", ":", "Q1", "\n", "1", " -", " -", " ", "0", ":", "Q2", " ", "L1",
    ":", "s", "\n", "2", " -", " -", " ", "0", ":", "Q1", " ", "L2", ":", "s", "\n",
];

/// The status of the stored run over this source and sink.
fn stored_run(
    rt: &impl Abort,
    alloc: Global,
    reads: Vec<u64>,
    sink: &mut MemSink,
) -> Result<u8, Fail> {
    let mut shelf = make_shelf!(alloc);
    assert!(rt; is_shelf(&shelf));
    let mut words = Vec::new(alloc);
    words.push(String::from_str(alloc, "run")?)?;
    let mut source = MemSource::new(STORED_INPUT.to_vec(alloc)?, 64, reads);
    Ok(ssi_program(alloc, words.as_slice(), &mut source, sink, &mut shelf))
}

#[test]
fn failing_source(rt: HostRuntime) -> Result<(), Fail> {
    let alloc = rt.alloc();
    // 223 bytes in pieces of 64 take four reads, and a fifth finds the end.
    let cases = [(0, 3), (1, 3), (2, 3), (3, 3), (4, 3), (5, 0)];
    for (call, expected) in cases {
        let mut sink = MemSink::new(alloc, 100, 100, Vec::new(alloc))?;
        let status = stored_run(&rt, alloc, vec![in alloc; call]?, &mut sink)?;
        assert_eq!(rt; status, expected, "{call}");
        let whole = if expected == 0 { TRACE } else { b"" };
        assert_eq!(rt; sink.written(), whole, "{call}");
    }
    Ok(())
}

#[test]
fn failing_sink(rt: HostRuntime) -> Result<(), Fail> {
    let alloc = rt.alloc();
    let mut before = Vec::new(alloc);
    for (call, piece) in STORED_OUTPUT.iter().enumerate() {
        let mut sink = MemSink::new(alloc, 100, 100, vec![in alloc; call as u64]?)?;
        let status = stored_run(&rt, alloc, Vec::new(alloc), &mut sink)?;
        assert_eq!(rt; status, 4, "{call}");
        assert_eq!(rt; sink.written(), before.as_slice(), "{call}");
        before.extend_from_slice(piece.as_bytes())?;
    }
    // A call past the last piece isn't made, so its failure is none.
    let mut sink = MemSink::new(alloc, 100, 100, vec![in alloc; 32]?)?;
    assert_eq!(rt; stored_run(&rt, alloc, Vec::new(alloc), &mut sink)?, 0);
    assert_eq!(rt; sink.written(), TRACE);
    assert_eq!(rt; before.as_slice(), TRACE);
    Ok(())
}
