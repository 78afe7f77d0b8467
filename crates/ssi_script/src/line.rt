//! The lines of the trace.

ghost use Rattle.std.specs.Prelude.{◌≡◌, ◌++◌, None, Some, codes, if◌then◌else◌, IfOk, IsTrue};
ghost use Rattle.std.specs.Io.{WritesAtMost};
ghost use Rattle.std.specs.Io.KnownBytes.{WriteAppends};
ghost use Rattle.ssi_base.specs.Faults.{HasCause, unbounded, unbounded_bounded};
ghost use Rattle.ssi_base.specs.Streams.{Writes};
ghost use Rattle.ssi_identities.specs.DataSets.{Plan};
ghost use Rattle.ssi_script.specs.Lines.{full_line, line_of, passed_text, taken_text, telegram_text};

use crate::changes::write_changes;
use arrayvec::ArrayVec;
use ssi_base::{Failed, OutOfMemory, Sink, decimal, hex4, write_all, write_three, write_two};
use ssi_cycle::{Did, Interlocking};
use ssi_identities::Kind;
use ssi_image::Image;
use std::alloc::Global;

/// How many bytes a line in memory takes at first: enough for one without telegrams and changes.
const FIRST_ROOM: usize = 32;

/// Writes a telegram, or a hyphen.
fn write_telegram<K: Sink>(sink: &mut K, telegram: Option<[u8; 4]>) -> Result<(), Failed>
    ensures { Writes (K.written sink.old) (K.written sink.new) (K.faults sink.old) (K.faults sink.new)
        (telegram_text telegram) result }
{
    match telegram {
        Some(bytes) => write_two(sink, b" ", hex4(bytes).as_slice()),
        None => write_all(sink, b" -"),
    }
}

/// Writes the panel and the name of a request, with what separates them.
#[tactic(auto, using(ssi_base::proofs::Writing::joins))]
fn write_request<K: Sink>(
    sink: &mut K,
    image: &Image,
    panel: u8,
    request: u16,
) -> Result<(), Failed>
    ensures { Writes (K.written sink.old) (K.written sink.new) (K.faults sink.old) (K.faults sink.new)
        (taken_text image.now (Some (panel, request))) result }
{
    write_two(sink, b" ", decimal(u64::from(panel)).as_slice())?;
    write_two(sink, b":", image.name(Kind::Request, request))
}

/// Writes the request that was taken, or a hyphen.
fn write_taken<K: Sink>(sink: &mut K, image: &Image, taken: Option<(u8, u16)>) -> Result<(), Failed>
    ensures { Writes (K.written sink.old) (K.written sink.new) (K.faults sink.old) (K.faults sink.new)
        (taken_text image.now taken) result }
{
    match taken {
        Some((panel, request)) => write_request(sink, image, panel, request),
        None => write_all(sink, b" -"),
    }
}

/// Writes what passed in a minor cycle.
#[tactic(auto, using(ssi_base::proofs::Writing::joins))]
fn write_passed<K: Sink>(
    sink: &mut K,
    image: &Image,
    out: Option<[u8; 4]>,
    arrived: Option<[u8; 4]>,
    taken: Option<(u8, u16)>,
) -> Result<(), Failed>
    ensures { Writes (K.written sink.old) (K.written sink.new) (K.faults sink.old) (K.faults sink.new)
        (passed_text image.now out arrived taken) result }
{
    write_telegram(sink, out)?;
    write_telegram(sink, arrived)?;
    write_taken(sink, image, taken)
}

/// Whether nothing went out, arrived, was taken or changed.
fn is_idle(
    out: Option<[u8; 4]>,
    arrived: Option<[u8; 4]>,
    taken: Option<(u8, u16)>,
    change: Option<(u16, bool)>,
) -> bool
    ensures passed { IsTrue result → (plan : Plan) → passed_text plan out arrived taken ≡ codes " - - -" }
    ensures changed { IsTrue result → change ≡ None }
{
    out.is_none() && arrived.is_none() && taken.is_none() && change.is_none()
}

/// Appends to the number of an idle minor cycle the rest of its line, where there is room for it. Answers whether the line is whole now; if not, it is as it was.
fn end_idle_line(line: &mut ArrayVec<u8, 20>, is_idle: bool) -> bool
    ensures line { line.new.items ≡ (if result then line.old.items ++ codes " - - -\n" else line.old.items) }
    ensures idle { IsTrue result → IsTrue is_idle }
{
    is_idle && line.try_extend_from_slice(b" - - -\n").is_ok()
}

/// Writes the line of the minor cycle that was just made: its number, the telegram that went out in it, what arrived, the request that was taken, and each fact
/// that it changed. After `Failed` a part of the line was written that isn't the whole.
#[tactic(auto, using(ssi_base::proofs::Writing::joins))]
pub fn write_cycle<K: Sink>(
    sink: &mut K,
    number: u64,
    out: Option<[u8; 4]>,
    arrived: Option<[u8; 4]>,
    did: &Did,
    core: &Interlocking,
) -> Result<(), Failed>
    ensures { Writes (K.written sink.old) (K.written sink.new) (K.faults sink.old) (K.faults sink.new)
        (line_of number out arrived did.now.taken core.now) result }
{
    let change = core.next_change(0);
    let is_idle = is_idle(out, arrived, did.taken, change);
    let mut line = decimal(number);
    if end_idle_line(&mut line, is_idle) {
        return write_all(sink, line.as_slice());
    }
    write_all(sink, line.as_slice())?;
    write_passed(sink, core.image(), out, arrived, did.taken)?;
    write_changes(sink, core, change)?;
    write_all(sink, b"\n")
}

/// A line in memory, as it is written. A failed growth counts as a fault.
#[derive(Drop)]
struct Line {
    bytes: Vec<u8>,
    failed: u64,
}

impl Sink for Line {
    ghost written = { λ line. Some line.bytes.items };

    ghost faults = { λ line. unbounded line.failed };

    ghost bounded = { λ line. unbounded_bounded line.failed };

    fn write(&mut self, piece: &[u8]) -> Result<usize, Failed> {
        match self.bytes.extend_from_slice(piece) {
            Ok(()) => Ok(piece.len()),
            Err(_) => {
                self.failed = self.failed.saturating_add(1);
                Err(Failed)
            }
        }
    }
}

/// The line that [`write_cycle`] writes.
pub fn cycle_line(
    alloc: Global,
    number: u64,
    out: Option<[u8; 4]>,
    arrived: Option<[u8; 4]>,
    did: &Did,
    core: &Interlocking,
) -> Result<Vec<u8>, OutOfMemory>
    ensures { IfOk result (λ line. line.items ≡ line_of number out arrived did.now.taken core.now) }
{
    let mut line = Line {
        bytes: Vec::with_capacity(alloc, FIRST_ROOM)?,
        failed: 0,
    };
    match write_cycle(&mut line, number, out, arrived, did, core) {
        Ok(()) => Ok(line.bytes),
        Err(Failed) => Err(OutOfMemory),
    }
}

/// Writes the line of a put that finds 64 requests waiting. After `Failed` a part of the line was written that isn't the whole.
#[tactic(auto, using(ssi_base::proofs::Writing::joins))]
pub fn write_full<K: Sink>(
    sink: &mut K,
    image: &Image,
    panel: u8,
    request: u16,
) -> Result<(), Failed>
    ensures { Writes (K.written sink.old) (K.written sink.new) (K.faults sink.old) (K.faults sink.new)
        (full_line image.now panel request) result }
{
    write_two(sink, b"full ", decimal(u64::from(panel)).as_slice())?;
    write_three(sink, b" ", image.name(Kind::Request, request), b"\n")
}
