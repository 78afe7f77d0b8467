//! The ways in which the program ends, and their numbers.

ghost use Rattle.std.specs.Prelude.{◌≡◌, IfOk, Ok, Err};
ghost use Rattle.ssi_run.specs.Outcomes.{told_of};
ghost use Rattle.ssi_run.specs.Statuses.{failure_number, number_after, number_of};

use ssi_base::{Failed, OutOfMemory};

/// The status of an answer.
#[derive(Clone, Copy, Debug, PartialEq, Eq)]
pub enum Status {
    /// All done, the input read to its end.
    Done,
    /// The data part has faults.
    Faulty,
    /// The words have no known shape; nothing was read.
    NoShape,
    /// A step of the script has a fault; the trace up to it was written.
    BadScript,
    /// The input has more than 2,097,152 bytes.
    PastLimit,
}

/// What kept a whole answer back.
#[derive(Clone, Copy, Debug, PartialEq, Eq)]
pub enum Failure {
    /// Reading failed; nothing was written.
    Source,
    /// Writing failed; a part of the answer was written.
    Sink,
    /// Memory ran out; nothing was written.
    Memory,
}

impl From<Failed> for Failure {
    ghost use Rattle.ssi_run.specs.declared.status.Failure.{Failure};

    ghost from_gives = { λ _ failure. failure ≡ Failure.Sink };

    fn from(_failed: Failed) -> Failure {
        Failure::Sink
    }
}

impl From<OutOfMemory> for Failure {
    ghost use Rattle.ssi_run.specs.declared.status.Failure.{Failure};

    ghost from_gives = { λ _ failure. failure ≡ Failure.Memory };

    fn from(_none: OutOfMemory) -> Failure {
        Failure::Memory
    }
}

impl Status {
    /// The number that the system is given.
    pub fn number(self) -> u8
        ensures { result ≡ number_of self }
    {
        match self {
            Status::Done => 0,
            Status::Faulty => 1,
            Status::NoShape => 2,
            Status::BadScript => 7,
            Status::PastLimit => 9,
        }
    }
}

impl Failure {
    /// The number that the system is given.
    pub fn number(self) -> u8
        ensures { result ≡ failure_number self }
    {
        match self {
            Failure::Source => 3,
            Failure::Sink => 4,
            Failure::Memory => 8,
        }
    }
}

/// The number to end with.
pub fn end_number(ended: Result<Status, Failure>) -> u8
    ensures { result ≡ number_after ended }
{
    match ended {
        Ok(status) => status.number(),
        Err(failure) => failure.number(),
    }
}

/// The status of what was written, unless writing failed.
pub fn told(written: Result<(), Failed>, status: Status) -> Result<Status, Failure>
    ensures { result ≡ told_of written status }
{
    match written {
        Ok(()) => Ok(status),
        Err(Failed) => Err(Failure::Sink),
    }
}
