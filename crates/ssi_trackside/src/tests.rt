use crate::kinds::{POINTS, SIGNAL, TRACK};
use crate::{
    Event, PointsModule, SignalModule, TrackModule, Trackside, command_at, event_at, is_shelf,
    report_at, shelf_place,
};
use std::process::Abort;
use std::test::Fail;

#[derive(Clone, Copy, Debug)]
enum Step {
    Send(u8),
    Tell(Event),
}

use Step::{Send, Tell};

/// Takes each step, and expects the report beside it.
fn expect_reports<M: Trackside>(rt: &impl Abort, module: &mut M, steps: &[(Step, Option<u8>)]) {
    for (step, report) in steps {
        match *step {
            Send(value) => module.command(value),
            Tell(event) => module.event(event),
        }
        assert_eq!(rt; module.report(), *report, "after {step:?}");
    }
}

#[test]
fn points_move_over_in_four_commands(rt: HostRuntime) {
    let steps = [
        (Send(0), Some(5)),
        (Send(2), Some(4)),
        (Send(2), Some(4)),
        (Send(2), Some(4)),
        (Send(2), Some(6)),
        (Send(2), Some(6)),
        (Send(0), Some(6)),
        (Send(3), Some(6)),
        (Send(8), Some(2)),
        (Send(9), Some(0)),
        (Send(9), Some(0)),
        (Send(9), Some(8)),
        (Send(9), Some(9)),
        (Send(4), Some(1)),
        (Send(240), Some(1)),
        (Send(12), Some(1)),
    ];
    let mut points = PointsModule::new();
    assert_eq!(rt; points.kind(), POINTS);
    assert!(rt; points.is_fresh());
    expect_reports(&rt, &mut points, &steps);
    assert!(rt; !points.is_fresh());
}

#[test]
fn jammed_machine_keeps_lie_and_wait(rt: HostRuntime) {
    let steps = [
        (Tell(Event::Jam(0)), Some(4)),
        (Send(2), Some(4)),
        (Tell(Event::Unjam(0)), Some(5)),
        (Send(2), Some(4)),
        (Send(2), Some(4)),
        (Tell(Event::Jam(0)), Some(4)),
        (Send(2), Some(4)),
        (Send(1), Some(4)),
        (Send(10), Some(0)),
        (Tell(Event::Unjam(0)), Some(0)),
        (Send(2), Some(0)),
        (Send(2), Some(2)),
        (Tell(Event::Jam(1)), Some(2)),
        (Tell(Event::Jam(2)), Some(2)),
        (Tell(Event::Fail(0)), Some(2)),
        (Tell(Event::Occupy(0)), Some(2)),
    ];
    expect_reports(&rt, &mut PointsModule::new(), &steps);
}

#[test]
fn signal_reports_lamps_that_burn(rt: HostRuntime) {
    let steps = [
        (Tell(Event::Fail(0)), Some(254)),
        (Tell(Event::Fail(7)), Some(126)),
        (Tell(Event::Fail(8)), Some(126)),
        (Tell(Event::Occupy(1)), Some(126)),
        (Tell(Event::Jam(1)), Some(126)),
        (Send(255), Some(126)),
        (Tell(Event::Mend(0)), Some(127)),
        (Tell(Event::Mend(7)), Some(255)),
    ];
    let mut signal = SignalModule::new();
    assert_eq!(rt; signal.kind(), SIGNAL);
    expect_reports(&rt, &mut signal, &steps);
    assert!(rt; signal.is_fresh());
}

#[test]
fn track_reports_inputs_that_are_clear(rt: HostRuntime) {
    let steps = [
        (Tell(Event::Occupy(1)), Some(253)),
        (Tell(Event::Occupy(1)), Some(253)),
        (Tell(Event::Clear(2)), Some(253)),
        (Tell(Event::Occupy(200)), Some(253)),
        (Tell(Event::Fail(3)), Some(253)),
        (Send(255), Some(253)),
        (Tell(Event::Clear(1)), Some(255)),
    ];
    let mut track = TrackModule::new();
    assert_eq!(rt; track.kind(), TRACK);
    expect_reports(&rt, &mut track, &steps);
    assert!(rt; track.is_fresh());
}

#[test]
fn dead_module_comes_back_as_events_left_it(rt: HostRuntime) {
    let points = [
        (Send(2), Some(4)),
        (Tell(Event::Dead), None),
        (Send(2), None),
        (Send(2), None),
        (Tell(Event::Jam(1)), None),
        (Tell(Event::Live), Some(0)),
        (Send(2), Some(0)),
        (Send(2), Some(0)),
        (Send(2), Some(2)),
    ];
    expect_reports(&rt, &mut PointsModule::new(), &points);
    let track = [
        (Tell(Event::Dead), None),
        (Tell(Event::Occupy(2)), None),
        (Tell(Event::Live), Some(251)),
    ];
    expect_reports(&rt, &mut TrackModule::new(), &track);
    let signal = [
        (Tell(Event::Fail(6)), Some(191)),
        (Tell(Event::Dead), None),
        (Tell(Event::Mend(6)), None),
        (Tell(Event::Live), Some(255)),
    ];
    expect_reports(&rt, &mut SignalModule::new(), &signal);
}

/// A box of another make: a track module that counts its commands.
#[derive(Drop)]
struct CountingTrack {
    track: TrackModule,
    commands: u64,
}

impl Trackside for CountingTrack {
    ghost state = { λ it. it.track };

    fn kind(&self) -> u8 {
        self.track.kind()
    }

    fn command(&mut self, value: u8) {
        self.commands = self.commands.saturating_add(1);
        self.track.command(value);
    }

    fn report(&self) -> Option<u8> {
        self.track.report()
    }

    fn event(&mut self, event: Event) {
        self.track.event(event);
    }

    fn is_fresh(&self) -> bool {
        self.track.is_fresh()
    }
}

#[test]
fn box_of_another_make_counts_its_commands(rt: HostRuntime) {
    let steps = [
        (Send(1), Some(255)),
        (Tell(Event::Occupy(1)), Some(253)),
        (Send(2), Some(253)),
        (Tell(Event::Clear(1)), Some(255)),
    ];
    let mut counting = CountingTrack {
        track: TrackModule::new(),
        commands: 0,
    };
    expect_reports(&rt, &mut counting, &steps);
    assert_eq!(rt; counting.commands, 2);
    assert!(rt; counting.is_fresh());
}

/// Expects of each member the report of a fresh one of its kind, but at two places.
fn expect_fresh_but(rt: &impl Abort, shelf: &Vec<Box<dyn Trackside>>, changed: [(usize, u8); 2]) {
    for place in 0..shelf.len() {
        let fresh = if place % 3 == 0 { 5 } else { 255 };
        let mut expected = fresh;
        for (at, report) in changed {
            if at == place {
                expected = report;
            }
        }
        assert_eq!(rt; report_at(shelf, place), Some(expected), "at {place}");
    }
}

#[test]
fn one_member_of_a_shelf_is_called(rt: HostRuntime) -> Result<(), Fail> {
    let alloc = rt.alloc();
    let mut shelf: Vec<Box<dyn Trackside>> = Vec::new(alloc);
    assert!(rt; !is_shelf(&shelf));
    for _ in 0..63 {
        let track = CountingTrack {
            track: TrackModule::new(),
            commands: 0,
        };
        shelf.push(Box::new(alloc, PointsModule::new())?)?;
        shelf.push(Box::new(alloc, SignalModule::new())?)?;
        shelf.push(Box::new(alloc, track)?)?;
    }
    assert!(rt; is_shelf(&shelf));

    let (points, track) = (shelf_place(5, POINTS), shelf_place(63, TRACK));
    assert_eq!(rt; (points, track), (12, 188));
    assert_eq!(rt; shelf.len(), 189);
    command_at(&mut shelf, points, 2);
    event_at(&mut shelf, track, Event::Occupy(0));
    expect_fresh_but(&rt, &shelf, [(points, 4), (track, 254)]);
    assert!(rt; !is_shelf(&shelf));
    Ok(())
}
