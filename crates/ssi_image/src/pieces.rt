//! Pieces of code, taken one after another.

ghost use Rattle.std.specs.Prelude.{◌≡◌, ◌∷◌, ◌++◌, map, is_some, if◌then◌else◌};
ghost use Rattle.ssi_image.specs.Packed.{piece_or_none};
ghost use Rattle.ssi_image.specs.Shown.{Begins};

use crate::packed::Code;
use std::marker::Model;

/// Pieces of code that are left to take.
#[derive(Drop)]
pub struct Pieces {
    /// The next one stands last.
    left: Vec<Vec<u8>>,
}

impl Model for Pieces {
    ghost use Rattle.std.specs.Prelude.{ℕ, List, map, reverse};

    ghost Value = { List (List ℕ) };

    ghost view = { λ pieces. reverse (map (λ piece. piece.items) pieces.left.items) };
}

impl Pieces {
    /// All of these, in their order.
    pub fn new(code: Vec<Vec<u8>>) -> Pieces
        ensures { result ≡ map (λ piece. piece.items) code.items }
    {
        let mut left = code;
        left.reverse();
        Pieces { left }
    }

    /// Takes the next piece.
    pub fn take(&mut self) -> Code
        requires { Begins 1 self.old }
        ensures { self.old ≡ result ∷ self.new }
    {
        match self.left.pop() {
            Some(bytes) => Code { bytes },
            None => unreachable!(),
        }
    }

    /// Takes the next piece, if one is wanted.
    pub fn take_if(&mut self, wanted: bool) -> Option<Code>
        requires { Begins (if wanted then 1 else 0) self.old }
        ensures pieces { self.old ≡ piece_or_none result ++ self.new }
        ensures wanted { is_some result ≡ wanted }
    {
        if wanted { Some(self.take()) } else { None }
    }
}
