ghost use Rattle.std.specs.Prelude.{◌≡◌};
ghost use Rattle.ssi_trackside.specs.Module.{fresh};
ghost use Rattle.ssi_trackside.specs.Kinds.{signal_kind};

use crate::Trackside;
use crate::events::Event;
use crate::kinds::SIGNAL;
use crate::pins::with_pin;
use std::marker::Model;

/// A signal module: eight lamps that can fail.
#[derive(Drop)]
pub struct SignalModule {
    dead: bool,
    failed: u8,
}

impl Model for SignalModule {
    ghost use Rattle.std.specs.Prelude.{false};
    ghost use Rattle.ssi_trackside.specs.Module.{ModuleState, fresh};
    ghost use Rattle.ssi_trackside.specs.Kinds.{signal_kind};

    ghost Value = { ModuleState };

    ghost view = { λ m. record (fresh signal_kind) { dead = m.dead; bits = m.failed } };
}

impl SignalModule {
    /// A fresh signal: alive, with all lamps in order.
    pub fn new() -> Self
        ensures { result ≡ fresh signal_kind }
    {
        SignalModule {
            dead: false,
            failed: 0,
        }
    }
}

impl Trackside for SignalModule {
    ghost state = { λ m. m };

    fn kind(&self) -> u8 {
        // The record, kind included, is that of the fields: the proof has to look at one.
        let _ = &self.failed;
        SIGNAL
    }

    /// Changes nothing: a signal takes no commands.
    fn command(&mut self, _value: u8) {
        let _ = &self.failed;
    }

    fn report(&self) -> Option<u8> {
        if self.dead {
            None
        } else {
            Some(u8::MAX - self.failed)
        }
    }

    fn event(&mut self, event: Event) {
        match event {
            Event::Fail(pin) => self.failed = with_pin(self.failed, pin, true),
            Event::Mend(pin) => self.failed = with_pin(self.failed, pin, false),
            Event::Dead => self.dead = true,
            Event::Live => self.dead = false,
            _ => {}
        }
    }

    fn is_fresh(&self) -> bool {
        !self.dead && self.failed == 0
    }
}
