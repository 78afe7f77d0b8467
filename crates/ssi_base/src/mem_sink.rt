// A sink in memory.
ghost use Rattle.std.specs.Prelude.{◌≡◌, ◌-◌, ◌<◌, ◌≤◌, ◌↔◌, [], length, min, take, Some, IsTrue, IsErr, IfOk, OnErr};
ghost use Rattle.std.specs.Io.{WritesAtMost};
ghost use Rattle.std.specs.Io.KnownBytes.{WriteAppends};
ghost use Rattle.ssi_base.specs.InMemory.{refuses, after_write, after_failed_write};

use crate::memory::OutOfMemory;
use crate::outside::{Failed, Sink};
use std::alloc::Global;
use std::marker::Model;

/// A sink in memory of a fixed capacity, which fails at chosen calls. Contracts see it as a
/// `MemoryOutput`.
#[derive(Drop)]
pub struct MemSink {
    bytes: Vec<u8>,
    capacity: usize,
    piece: usize,
    call: u64,
    fails: Vec<u64>,
    failed: u64,
}

impl Model for MemSink {
    ghost use Rattle.std.specs.Prelude.{◌<◌, ◌≤◌, vec_len, vec_capacity};
    ghost use Rattle.ssi_base.specs.InMemory.{MemoryOutput};

    ghost Value = { MemoryOutput };

    ghost view = { λ s. record {
      written = s.bytes.items;
      capacity = s.capacity;
      piece = s.piece;
      call = s.call;
      fails = s.fails.items;
      failed = s.failed;
    } };

    ghost invariant = { λ s. (vec_len s.bytes ≤ s.capacity) ×
        (s.capacity ≤ vec_capacity s.bytes) × (0 < s.piece) };
}

impl MemSink {
    /// An empty sink that holds up to `capacity` bytes and takes at most `piece` of them in a call.
    /// The calls whose numbers, from 0, stand in `fails` answer `Failed`, and so does a write of
    /// some bytes where the capacity is used up.
    pub fn new(
        alloc: Global,
        capacity: usize,
        piece: usize,
        fails: Vec<u64>,
    ) -> Result<MemSink, OutOfMemory>
        requires { 0 < piece }
        ensures { IfOk result (λ sink. sink ≡ record {
          written = [];
          capacity = capacity;
          piece = piece;
          call = 0;
          fails = fails.items;
          failed = 0;
        }) }
    {
        let bytes = Vec::with_capacity(alloc, capacity)?;
        Ok(MemSink {
            bytes,
            capacity,
            piece,
            call: 0,
            fails,
            failed: 0,
        })
    }

    /// The bytes that were written, never more than the capacity.
    pub fn written(&self) -> &[u8]
        ensures bytes { result.now ≡ self.now.written }
        ensures within { length result.now ≤ self.now.capacity }
    {
        &self.bytes
    }
}

impl Sink for MemSink {
    ghost use Rattle.std.specs.Prelude.{Some};
    ghost use Rattle.ssi_base.specs.InMemory.{output_faults, output_bounded};

    ghost written = { λ s. Some s.written };

    ghost faults = { output_faults };

    ghost bounded = { output_bounded };

    fn write(&mut self, piece: &[u8]) -> Result<usize, Failed>
        ensures bound { WritesAtMost result piece.now }
        ensures some { IfOk result (λ n. 0 < length piece.now → 0 < n) }
        ensures fails { IsErr result ↔ IsTrue (refuses self.old piece.now) }
        ensures count { IfOk result (λ n. n ≡ min (length piece.now)
            (min self.old.piece (self.old.capacity - length self.old.written))) }
        ensures ok { IfOk result (λ n. self.new ≡ after_write self.old (take n piece.now)) }
        ensures err { OnErr result (self.new ≡ after_failed_write self.old) }
    {
        let fails = self.fails.contains(&self.call);
        self.call = self.call.saturating_add(1);
        let room = self.capacity - self.bytes.len();
        if fails || room == 0 && !piece.is_empty() {
            self.failed = self.failed.saturating_add(1);
            return Err(Failed);
        }
        let count = piece.len().min(self.piece).min(room);
        match self.bytes.extend_from_slice(&piece[..count]) {
            Ok(()) => Ok(count),
            Err(_) => unreachable!(),
        }
    }
}
