// Where bytes come from and where they go.
ghost use Rattle.std.specs.Prelude.{ℕ, ◌<◌, List, Option, length, IfOk};
ghost use Rattle.std.specs.Io.{ReadsAtMost, WritesAtMost};
ghost use Rattle.std.specs.Io.KnownBytes.{ReadConsumes, WriteAppends};
ghost use Rattle.ssi_base.specs.Faults.{Faults, HasCause, IsBounded};

/// The outside could not give or take bytes, and its count of faults says so.
#[derive(Clone, Copy, Debug, PartialEq, Eq)]
pub struct Failed;

/// What gives bytes, one after another.
pub trait Source {
    /// The bytes that are left, where the source tells them.
    ghost left: { Self → Option (List ℕ) };

    /// How often it has failed.
    ghost faults: { Self → Faults };

    /// Moves the next bytes into the front of `buf`, and answers how many. None come into a buffer
    /// with room only at the end of the input. After `Failed` nothing was moved.
    fn read(&mut self, buf: &mut [u8]) -> Result<usize, Failed>
        ensures bound { ReadsAtMost result buf.new }
        ensures bytes { ReadConsumes (left self.old) (left self.new) result buf.new }
        ensures cause { HasCause (faults self.old) (faults self.new) result };

    /// The count stays within its most, and the most within the last number of a count.
    ghost bounded: { (source : Self) → IsBounded (faults source) };
}

/// What takes bytes, one after another.
pub trait Sink {
    /// The bytes that were written, where the sink tells them.
    ghost written: { Self → Option (List ℕ) };

    /// How often it has failed.
    ghost faults: { Self → Faults };

    /// Appends the first bytes of `piece`, and answers how many: at least one of a piece that
    /// isn't empty. After `Failed` nothing was appended.
    fn write(&mut self, piece: &[u8]) -> Result<usize, Failed>
        ensures bound { WritesAtMost result piece.now }
        ensures some { IfOk result (λ n. 0 < length piece.now → 0 < n) }
        ensures bytes { WriteAppends (written self.old) (written self.new) result piece.now }
        ensures cause { HasCause (faults self.old) (faults self.new) result };

    /// The count stays within its most, and the most within the last number of a count.
    ghost bounded: { (sink : Self) → IsBounded (faults sink) };
}
