// The edge to std's readers and writers. It tells the layers above no bytes, and counts each failure.
ghost use Rattle.std.specs.Prelude.{◌≡◌, ◌<◌, [], length, IfOk, OnOk, is_err, if◌then◌else◌};
ghost use Rattle.std.specs.Io.{ReadsAtMost, WritesAtMost};
ghost use Rattle.std.specs.Io.Buffered.{writer_buffer, writer_contents};
ghost use Rattle.std.specs.Io.KnownBytes.{Keeps, ReadConsumes, WriteAppends};
ghost use Rattle.ssi_base.specs.Faults.{HasCause, unbounded, one_more};

use crate::outside::{Failed, Sink, Source};
use std::io::{BufWriter, ErrorKind, Read, Write};
use std::marker::Model;

/// Reads from a reader of std. A read that was interrupted is tried again, and is no failure. Contracts see the
/// reader, and how often it has failed.
#[derive(Drop)]
pub struct StdSource<R: Read + Drop> {
    reader: R,
    failed: u64,
}

impl<R: Read + Drop> Model for StdSource<R> {
    ghost use Rattle.ssi_base.specs.OverStd.{OverStd};

    ghost Value = { OverStd R };

    ghost view = { λ s. record { inner = s.reader; failed = s.failed } };
}

impl<R: Read + Drop> StdSource<R> {
    /// A source over this reader, which has not failed yet.
    pub fn new(reader: R) -> StdSource<R>
        ensures { result ≡ record { inner = reader; failed = 0 } }
    {
        StdSource { reader, failed: 0 }
    }
}

impl<R: Read + Drop> Source for StdSource<R> {
    ghost use Rattle.std.specs.Prelude.{None};
    ghost use Rattle.ssi_base.specs.Faults.{unbounded, unbounded_bounded};

    ghost left = { λ _. None };

    ghost faults = { λ s. unbounded s.failed };

    ghost bounded = { λ s. unbounded_bounded s.failed };

    fn read(&mut self, buf: &mut [u8]) -> Result<usize, Failed>
        ensures bound { ReadsAtMost result buf.new }
        ensures bytes { ReadConsumes (R.remaining self.old.inner) (R.remaining self.new.inner)
            result buf.new }
        ensures count { self.new.failed ≡
            (if is_err result then one_more self.old.failed else self.old.failed) }
    {
        'tries: for _ in 0..u64::MAX {
            match self.reader.read(buf) {
                Ok(count) => return Ok(count),
                Err(error) if error.kind() == ErrorKind::Interrupted => {}
                Err(_) => break,
            }
        }
        self.failed = self.failed.saturating_add(1);
        Err(Failed)
    }
}

/// Writes to a writer of std, of which taking nothing of some bytes counts as a failure too.
/// Contracts see the writer, and how often it has failed.
#[derive(Drop)]
pub struct StdSink<W: Write + Drop> {
    writer: W,
    failed: u64,
}

impl<W: Write + Drop> Model for StdSink<W> {
    ghost use Rattle.ssi_base.specs.OverStd.{OverStd};

    ghost Value = { OverStd W };

    ghost view = { λ s. record { inner = s.writer; failed = s.failed } };
}

impl<W: Write + Drop> StdSink<W> {
    /// A sink over this writer, which has not failed yet.
    pub fn new(writer: W) -> StdSink<W>
        ensures { result ≡ record { inner = writer; failed = 0 } }
    {
        StdSink { writer, failed: 0 }
    }

    /// The writer below, as it is: nothing is flushed, and what it holds back it still holds.
    pub fn into_inner(self) -> W
        ensures { result ≡ self.inner }
    {
        self.writer
    }
}

impl<W: Write + Drop> StdSink<BufWriter<W>> {
    /// Passes on all that the buffer still holds back. After `Failed` some of it may have gone out,
    /// and the buffer holds the rest.
    pub fn flush(&mut self) -> Result<(), Failed>
        ensures empty { OnOk result (writer_buffer self.new.inner ≡ []) }
        ensures bytes { Keeps (writer_contents W.contents self.old.inner)
            (writer_contents W.contents self.new.inner) }
        ensures count { self.new.failed ≡
            (if is_err result then one_more self.old.failed else self.old.failed) }
        ensures cause { HasCause (unbounded self.old.failed) (unbounded self.new.failed) result }
    {
        match self.writer.flush() {
            Ok(()) => Ok(()),
            Err(_) => {
                self.failed = self.failed.saturating_add(1);
                Err(Failed)
            }
        }
    }
}

impl<W: Write + Drop> Sink for StdSink<W> {
    ghost use Rattle.std.specs.Prelude.{None};
    ghost use Rattle.ssi_base.specs.Faults.{unbounded, unbounded_bounded};

    ghost written = { λ _. None };

    ghost faults = { λ s. unbounded s.failed };

    ghost bounded = { λ s. unbounded_bounded s.failed };

    fn write(&mut self, piece: &[u8]) -> Result<usize, Failed>
        ensures bound { WritesAtMost result piece.now }
        ensures bytes { WriteAppends (W.contents self.old.inner) (W.contents self.new.inner)
            result piece.now }
        ensures some { IfOk result (λ n. 0 < length piece.now → 0 < n) }
        ensures count { self.new.failed ≡
            (if is_err result then one_more self.old.failed else self.old.failed) }
    {
        match self.writer.write(piece) {
            Ok(count) if count > 0 || piece.is_empty() => Ok(count),
            _ => {
                self.failed = self.failed.saturating_add(1);
                Err(Failed)
            }
        }
    }
}
