// A source in memory.
ghost use Rattle.std.specs.Prelude.{◌≡◌, ◌-◌, ◌<◌, ◌↔◌, length, min, Some, IsTrue, IsErr, IfOk, OnErr};
ghost use Rattle.std.specs.Io.KnownBytes.{ReadConsumes};
ghost use Rattle.ssi_base.specs.InMemory.{is_listed, after_read, after_failed_read};

use crate::outside::{Failed, Source};
use std::marker::Model;

/// A source of bytes in memory, which fails at chosen calls. Contracts see it as a `MemoryInput`.
#[derive(Drop)]
pub struct MemSource {
    bytes: Vec<u8>,
    given: usize,
    piece: usize,
    call: u64,
    fails: Vec<u64>,
    failed: u64,
}

impl Model for MemSource {
    ghost use Rattle.std.specs.Prelude.{◌<◌, ◌≤◌, length, drop};
    ghost use Rattle.ssi_base.specs.InMemory.{MemoryInput};

    ghost Value = { MemoryInput };

    ghost view = { λ s. record {
      left = drop s.given s.bytes.items;
      piece = s.piece;
      call = s.call;
      fails = s.fails.items;
      failed = s.failed;
    } };

    ghost invariant = { λ s. (s.given ≤ length s.bytes.items) × (0 < s.piece) };
}

impl MemSource {
    /// A source of these bytes, at most `piece` in a call. The calls whose numbers, from 0, stand
    /// in `fails` answer `Failed`.
    pub fn new(bytes: Vec<u8>, piece: usize, fails: Vec<u64>) -> MemSource
        requires { 0 < piece }
        ensures { result ≡ record {
          left = bytes.items;
          piece = piece;
          call = 0;
          fails = fails.items;
          failed = 0;
        } }
    {
        MemSource {
            bytes,
            given: 0,
            piece,
            call: 0,
            fails,
            failed: 0,
        }
    }
}

impl Source for MemSource {
    ghost use Rattle.std.specs.Prelude.{Some};
    ghost use Rattle.ssi_base.specs.InMemory.{input_faults, input_bounded};

    ghost left = { λ s. Some s.left };

    ghost faults = { input_faults };

    ghost bounded = { input_bounded };

    fn read(&mut self, buf: &mut [u8]) -> Result<usize, Failed>
        ensures fails { IsErr result ↔ IsTrue (is_listed self.old.fails self.old.call) }
        ensures count { IfOk result (λ n.
            n ≡ min (length buf.new) (min self.old.piece (length self.old.left))) }
        ensures bytes { ReadConsumes (Some self.old.left) (Some self.new.left) result buf.new }
        ensures ok { IfOk result (λ n. self.new ≡ after_read self.old n) }
        ensures err { OnErr result (self.new ≡ after_failed_read self.old) }
    {
        let fails = self.fails.contains(&self.call);
        self.call = self.call.saturating_add(1);
        if fails {
            self.failed = self.failed.saturating_add(1);
            return Err(Failed);
        }
        let left = self.bytes.len() - self.given;
        let count = buf.len().min(self.piece).min(left);
        buf[..count].copy_from_slice(&self.bytes[self.given..self.given + count]);
        self.given += count;
        Ok(count)
    }
}
