//! What the next exchange with each address does to its telegrams.

ghost use Rattle.std.specs.Prelude.{◌≡◌, ◌<◌, None, Some, replicate, slice_set};
ghost use Rattle.ssi_script.specs.Sessions.{mark_of};

use ssi_script::Mark;
use std::marker::Model;

/// How many addresses there are, 0 among them.
const ADDRESSES: usize = 64;

/// The mark of each address, if it has one.
#[derive(Drop)]
pub struct Marks {
    marks: [Option<Mark>; ADDRESSES],
}

impl Model for Marks {
    ghost use Rattle.std.specs.Prelude.{List, Option};
    ghost use Rattle.ssi_script.specs.declared.step.Mark.{Mark};

    ghost Value = { List (Option Mark) };

    ghost view = { λ marks. marks.marks };
}

impl Marks {
    /// The marks at the start: no address has one.
    pub fn new() -> Marks
        ensures { result ≡ replicate 64 None }
    {
        Marks {
            marks: [None; ADDRESSES],
        }
    }

    /// Gives an address, 0 to 63, a mark, in the place of the one that it had.
    pub fn set(&mut self, address: u8, mark: Mark)
        requires { address < 64 }
        ensures { self.new ≡ slice_set self.old address (Some mark) }
    {
        self.marks[usize::from(address)] = Some(mark);
    }

    /// Takes the mark of an address, 0 to 63, which then has none.
    pub fn take(&mut self, address: u8) -> Option<Mark>
        requires { address < 64 }
        ensures mark { result ≡ mark_of self.old address }
        ensures used_up { self.new ≡ slice_set self.old address None }
    {
        self.marks[usize::from(address)].take()
    }
}
