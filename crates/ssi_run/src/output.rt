//! The end of the output.

ghost use Rattle.std.specs.Prelude.{◌≡◌, ◌≢◌, ◌⊎◌, []};
ghost use Rattle.std.specs.Io.Buffered.{writer_buffer, writer_contents, writer_inner};
ghost use Rattle.std.specs.Io.KnownBytes.{Keeps};
ghost use Rattle.ssi_base.specs.Faults.{Rose, unbounded};
ghost use Rattle.ssi_run.specs.Statuses.{failure_number};

use crate::status::Failure;
use ssi_base::{Failed, StdSink};
use std::io::{BufWriter, Write};

/// Ends the output, and answers the status to end with.
///
/// What is still held back goes out now. Where writing has failed before, or fails now, nothing
/// more goes out, and the status is that of a failed sink.
pub fn end_output<W: Write + Drop>(sink: &mut StdSink<BufWriter<W>>, status: u8) -> u8
    ensures given_up { status ≡ failure_number Failure.Sink → (sink.new ≡ sink.old) × (result ≡ failure_number Failure.Sink) }
    ensures whole { result ≢ failure_number Failure.Sink → (result ≡ status) × (writer_buffer sink.new.inner ≡ []) }
    ensures bytes { Keeps (writer_contents W.contents sink.old.inner)
        (writer_contents W.contents sink.new.inner) }

    // The status is that of a failed sink exactly where it was, or where the flush failed.
    ensures cause { result ≡ failure_number Failure.Sink → (status ≡ failure_number Failure.Sink)
        ⊎ Rose (unbounded sink.old.failed) (unbounded sink.new.failed) }
    ensures no_failure { result ≢ failure_number Failure.Sink → sink.new.failed ≡ sink.old.failed }
{
    let failed = Failure::Sink.number();
    if status == failed {
        return failed;
    }
    match sink.flush() {
        Ok(()) => status,
        Err(Failed) => failed,
    }
}

/// The writer below the output. What is still held back is given up: a buffer that is dropped would write it
/// once more, so it is taken apart.
pub fn writer_below<W: Write + Drop>(sink: StdSink<BufWriter<W>>) -> W
    ensures { result ≡ writer_inner sink.inner }
{
    let (writer, _rest) = sink.into_inner().into_parts();
    writer
}
