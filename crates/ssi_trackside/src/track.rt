ghost use Rattle.std.specs.Prelude.{◌≡◌};
ghost use Rattle.ssi_trackside.specs.Module.{fresh};
ghost use Rattle.ssi_trackside.specs.Kinds.{track_kind};

use crate::Trackside;
use crate::events::Event;
use crate::kinds::TRACK;
use crate::pins::with_pin;
use std::marker::Model;

/// A track module: eight inputs that trains occupy.
#[derive(Drop)]
pub struct TrackModule {
    dead: bool,
    occupied: u8,
}

impl Model for TrackModule {
    ghost use Rattle.std.specs.Prelude.{false};
    ghost use Rattle.ssi_trackside.specs.Module.{ModuleState, fresh};
    ghost use Rattle.ssi_trackside.specs.Kinds.{track_kind};

    ghost Value = { ModuleState };

    ghost view = { λ m. record (fresh track_kind) { dead = m.dead; bits = m.occupied } };
}

impl TrackModule {
    /// A fresh track module: alive, with no input occupied.
    pub fn new() -> Self
        ensures { result ≡ fresh track_kind }
    {
        TrackModule {
            dead: false,
            occupied: 0,
        }
    }
}

impl Trackside for TrackModule {
    ghost state = { λ m. m };

    fn kind(&self) -> u8 {
        // The record, kind included, is that of the fields: the proof has to look at one.
        let _ = &self.occupied;
        TRACK
    }

    /// Changes nothing: a track takes no commands.
    fn command(&mut self, _value: u8) {
        let _ = &self.occupied;
    }

    fn report(&self) -> Option<u8> {
        if self.dead {
            None
        } else {
            Some(u8::MAX - self.occupied)
        }
    }

    fn event(&mut self, event: Event) {
        match event {
            Event::Occupy(pin) => self.occupied = with_pin(self.occupied, pin, true),
            Event::Clear(pin) => self.occupied = with_pin(self.occupied, pin, false),
            Event::Dead => self.dead = true,
            Event::Live => self.dead = false,
            _ => {}
        }
    }

    fn is_fresh(&self) -> bool {
        !self.dead && self.occupied == 0
    }
}
