//! A session: an interlocking with its modules, driven by the steps of a script.

ghost use Rattle.std.specs.Prelude.{◌≡◌, ◌+◌, ◌<◌, ◌≤◌, ◌^◌, [], All, OnOk, Some, if◌then◌else◌, length, map, option_map, slice_set, vec_len};
ghost use Rattle.ssi_base.specs.Streams.{Writes};
ghost use Rattle.ssi_cycle.specs.Cores.{after_event_on, core_of};
ghost use Rattle.ssi_cycle.specs.Exchanges.{module_in};
ghost use Rattle.ssi_cycle.specs.Requests.{is_full};
ghost use Rattle.ssi_cycle.specs.Worlds.Event.{Put};
ghost use Rattle.ssi_script.specs.Lines.{full_line};
ghost use Rattle.ssi_script.specs.Meanings.{IsAddressIn, IsStepOf, cycles_in, cycles_of, most_cycles};
ghost use Rattle.ssi_script.specs.Sessions.{after_cycle, after_cycles, after_step, session_of};
ghost use Rattle.ssi_script.specs.Traces.{cycle_pieces, cycle_text, step_pieces, steps_pieces};
ghost use Rattle.ssi_run.specs.Courses.{session_at};
ghost use Rattle.ssi_run.specs.Stops.{WritesPieces};
ghost use Rattle.ssi_trackside.specs.Module.{after_event};
ghost use Rattle.ssi_trackside.specs.Shelf.{module_at, place_of};

use crate::exchange::make_exchange;
use crate::marks::Marks;
use ssi_base::{Failed, Sink};
use ssi_cycle::{Full, Interlocking};
use ssi_image::Image;
use ssi_script::{Mark, ScriptStep, write_cycle, write_full};
use ssi_trackside::{Event, Trackside, event_at, shelf_place};

/// What a session has beside the interlocking and the modules.
#[derive(Drop)]
struct Course {
    /// The mark of each address.
    marks: Marks,
    /// The number of the next minor cycle.
    number: u64,
}

/// Makes the next minor cycle with its exchange, and writes its line once all is done that it tells.
fn make_cycle<K: Sink>(
    sink: &mut K,
    core: &mut Interlocking,
    shelf: &mut Vec<Box<dyn Trackside>>,
    course: &mut Course,
) -> Result<(), Failed>
    requires full { vec_len shelf.old ≡ 189 }
    requires fits { course.old.number + 1 < 2 ^ 64 }
    ensures after { session_at core.new (map state shelf.new.items) course.new.marks course.new.number
        ≡ after_cycle (session_at core.old (map state shelf.old.items) course.old.marks course.old.number) }
    ensures length { vec_len shelf.new ≡ vec_len shelf.old }
    ensures writes { let session = session_at core.old (map state shelf.old.items) course.old.marks course.old.number in
        Writes (K.written sink.old) (K.written sink.new) (K.faults sink.old) (K.faults sink.new) (cycle_text session) result }
{
    let passed = make_exchange(core, shelf, &mut course.marks);
    let did = core.minor_cycle(passed.arrived);
    let number = course.number;
    course.number += 1;
    write_cycle(sink, number, passed.out, passed.arrived, &did, core)
}

/// Makes so many minor cycles, one after another, and writes their lines.
fn make_cycles<K: Sink>(
    sink: &mut K,
    core: &mut Interlocking,
    shelf: &mut Vec<Box<dyn Trackside>>,
    course: &mut Course,
    count: u32,
) -> Result<(), Failed>
    requires full { vec_len shelf.old ≡ 189 }
    requires fits { course.old.number + count < 2 ^ 64 }
    ensures after { OnOk result (session_at core.new (map state shelf.new.items) course.new.marks course.new.number
        ≡ after_cycles count (session_at core.old (map state shelf.old.items) course.old.marks course.old.number)) }
    ensures number { OnOk result (course.new.number ≡ course.old.number + count) }
    ensures plan { core.new.plan ≡ core.old.plan }
    ensures length { vec_len shelf.new ≡ vec_len shelf.old }
    ensures writes { let session = session_at core.old (map state shelf.old.items) course.old.marks course.old.number in
        WritesPieces (cycle_pieces count session) (K.written sink.old) (K.written sink.new) (K.faults sink.old) (K.faults sink.new)
        (map state shelf.old.items) (map state shelf.new.items) result }
{
    for _cycle in 0..count {
        make_cycle(sink, core, shelf, course)?;
    }
    Ok(())
}

/// Puts a request, and writes a line where 64 wait already.
fn put_request<K: Sink>(
    sink: &mut K,
    core: &mut Interlocking,
    panel: u8,
    request: u16,
) -> Result<(), Failed>
    requires panel { panel ≡ 0 }
    requires there { request < length core.old.plan.requests }
    ensures put { core.new ≡ after_event_on core.old (Put request) }
    ensures writes { Writes (K.written sink.old) (K.written sink.new) (K.faults sink.old) (K.faults sink.new)
        (if is_full core.old.world.waiting then full_line core.old.plan panel request else []) result }
{
    match core.put(panel, request) {
        Ok(()) => Ok(()),
        Err(Full) => write_full(sink, core.image(), panel, request),
    }
}

/// Lets an event happen at the module with an address and a kind.
fn happen_at(
    image: &Image,
    shelf: &mut Vec<Box<dyn Trackside>>,
    address: u8,
    kind: u8,
    event: Event,
)
    requires full { vec_len shelf.old ≡ 189 }
    requires there { option_map (λ row. row.kind) (module_in image.now address) ≡ Some kind }
    ensures states { let states = map state shelf.old.items in let place = place_of address kind in
        map state shelf.new.items ≡ slice_set states place (after_event (module_at states place) event) }
    ensures length { vec_len shelf.new ≡ vec_len shelf.old }
{
    // The layout is well, so the module has a place.
    let _well = image.counts();
    event_at(shelf, shelf_place(address, kind), event);
}

/// Marks the next exchange with an address, in the place of the mark that it had.
fn mark_next(image: &Image, marks: &mut Marks, address: u8, mark: Mark)
    requires there { IsAddressIn image.now address }
    ensures { marks.new ≡ slice_set marks.old address (Some mark) }
{
    // The layout is well, so the address is one of 64.
    let _well = image.counts();
    marks.set(address, mark);
}

/// Does a step, and writes what it writes.
#[tactic(auto, using(crate::proofs::Pieces::piece_joins))]
fn write_step<K: Sink>(
    sink: &mut K,
    core: &mut Interlocking,
    shelf: &mut Vec<Box<dyn Trackside>>,
    course: &mut Course,
    step: ScriptStep,
) -> Result<(), Failed>
    requires full { vec_len shelf.old ≡ 189 }
    requires can { IsStepOf core.old.plan step }
    requires fits { course.old.number + cycles_of step < 2 ^ 64 }
    ensures after { OnOk result (session_at core.new (map state shelf.new.items) course.new.marks course.new.number
        ≡ after_step step (session_at core.old (map state shelf.old.items) course.old.marks course.old.number)) }
    ensures number { OnOk result (course.new.number ≡ course.old.number + cycles_of step) }
    ensures plan { core.new.plan ≡ core.old.plan }
    ensures length { vec_len shelf.new ≡ vec_len shelf.old }
    ensures writes { let session = session_at core.old (map state shelf.old.items) course.old.marks course.old.number in
        WritesPieces (step_pieces step session) (K.written sink.old) (K.written sink.new) (K.faults sink.old) (K.faults sink.new)
        (map state shelf.old.items) (map state shelf.new.items) result }
{
    match step {
        ScriptStep::Panel { panel, request } => return put_request(sink, core, panel, request),
        ScriptStep::Cycle { count } => return make_cycles(sink, core, shelf, course, count),
        ScriptStep::Happen {
            address,
            kind,
            event,
        } => happen_at(core.image(), shelf, address, kind, event),
        ScriptStep::Raw { address, bytes } => {
            mark_next(core.image(), &mut course.marks, address, Mark::Raw(bytes))
        }
        ScriptStep::Lose { address } => {
            mark_next(core.image(), &mut course.marks, address, Mark::Lose)
        }
        ScriptStep::Drop { address } => {
            mark_next(core.image(), &mut course.marks, address, Mark::Drop)
        }
    }
    Ok(())
}

/// Does the steps of a script, one after another, and writes the trace. Each line is written once all is done that it tells: after `Failed` a part of the trace was
/// written that ends in one of its lines, and the modules are as they stand when that line is written.
pub fn write_steps<K: Sink>(
    sink: &mut K,
    core: &mut Interlocking,
    shelf: &mut Vec<Box<dyn Trackside>>,
    steps: &[ScriptStep],
) -> Result<(), Failed>
    requires begun { core.old ≡ core_of core.old.plan }
    requires full { length (map state shelf.old.items) ≡ 189 }
    requires can { All (IsStepOf core.old.plan) steps.now }
    requires within { cycles_in steps.now ≤ most_cycles }
    ensures { WritesPieces (steps_pieces steps.now (session_of core.old.plan (map state shelf.old.items)))
        (K.written sink.old) (K.written sink.new) (K.faults sink.old) (K.faults sink.new)
        (map state shelf.old.items) (map state shelf.new.items) result }
{
    let mut course = Course {
        marks: Marks::new(),
        number: 0,
    };
    for step in steps {
        write_step(sink, core, shelf, &mut course, *step)?;
    }
    Ok(())
}
