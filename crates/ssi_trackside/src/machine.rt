ghost use Rattle.std.specs.Prelude.{◌≡◌, ◌↔◌, IsTrue};
ghost use Rattle.ssi_trackside.specs.Module.{MachineState, after_drive, detection_of, fresh_machine};

use std::marker::Model;

/// How many commands to its lie a machine needs, after the one that moves it, to be detected.
const MOVES_IN: u8 = 3;

/// One machine of points.
#[derive(Drop)]
pub struct Machine {
    reverse: bool,
    wait: u8,
    jammed: bool,
}

impl Model for Machine {
    ghost Value = { MachineState };

    ghost view = { λ m. record { lie = m.reverse; wait = m.wait; jammed = m.jammed } };
}

impl Machine {
    /// A machine that is detected normal.
    pub fn new() -> Self
        ensures { result ≡ fresh_machine }
    {
        Machine {
            reverse: false,
            wait: 0,
            jammed: false,
        }
    }

    /// Takes the two drive bits of a command.
    pub fn drive(&mut self, normal: bool, reverse: bool)
        ensures { self.new ≡ after_drive normal reverse self.old }
    {
        if normal == reverse || self.jammed {
            return;
        }
        if reverse != self.reverse {
            self.reverse = reverse;
            self.wait = MOVES_IN;
        } else if self.wait > 0 {
            self.wait -= 1;
        }
    }

    /// The two bits of a report.
    pub fn detection(&self) -> u8
        ensures { result ≡ detection_of self.now }
    {
        if self.jammed || self.wait > 0 {
            0
        } else if self.reverse {
            2
        } else {
            1
        }
    }

    /// Whether it is as `new` makes it.
    pub fn is_fresh(&self) -> bool
        ensures { IsTrue result ↔ (self.now ≡ fresh_machine) }
    {
        !self.reverse && self.wait == 0 && !self.jammed
    }

    /// Jams it, or frees it.
    pub fn set_jammed(&mut self, jammed: bool)
        ensures { self.new ≡ record self.old { jammed = jammed } }
    {
        self.jammed = jammed;
    }
}
