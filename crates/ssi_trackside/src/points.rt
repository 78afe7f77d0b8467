ghost use Rattle.std.specs.Prelude.{◌≡◌};
ghost use Rattle.ssi_trackside.specs.Module.{fresh};
ghost use Rattle.ssi_trackside.specs.Kinds.{points_kind};

use crate::Trackside;
use crate::events::Event;
use crate::kinds::POINTS;
use crate::machine::Machine;
use crate::pins::has_bit;
use std::marker::Model;

/// A points module: two machines, each driven by two bits of a command.
#[derive(Drop)]
pub struct PointsModule {
    dead: bool,
    a: Machine,
    b: Machine,
}

impl Model for PointsModule {
    ghost use Rattle.ssi_trackside.specs.Module.{ModuleState};
    ghost use Rattle.ssi_trackside.specs.Points.{points_of};

    ghost Value = { ModuleState };

    ghost view = { λ m. points_of m.dead m.a m.b };
}

impl PointsModule {
    /// Fresh points: alive, with both machines detected normal.
    pub fn new() -> Self
        ensures { result ≡ fresh points_kind }
    {
        PointsModule {
            dead: false,
            a: Machine::new(),
            b: Machine::new(),
        }
    }
}

impl Trackside for PointsModule {
    ghost state = { λ m. m };

    fn kind(&self) -> u8 {
        // The record, kind included, is that of the fields: the proof has to look at one.
        let _ = &self.dead;
        POINTS
    }

    fn command(&mut self, value: u8) {
        if !self.dead {
            self.a.drive(has_bit(value, 0), has_bit(value, 1));
            self.b.drive(has_bit(value, 2), has_bit(value, 3));
        }
    }

    fn report(&self) -> Option<u8> {
        if self.dead {
            None
        } else {
            Some(self.a.detection() + 4 * self.b.detection())
        }
    }

    fn event(&mut self, event: Event) {
        match event {
            Event::Jam(0) => self.a.set_jammed(true),
            Event::Jam(1) => self.b.set_jammed(true),
            Event::Unjam(0) => self.a.set_jammed(false),
            Event::Unjam(1) => self.b.set_jammed(false),
            Event::Dead => self.dead = true,
            Event::Live => self.dead = false,
            _ => {}
        }
    }

    fn is_fresh(&self) -> bool {
        !self.dead && self.a.is_fresh() && self.b.is_fresh()
    }
}
