//! Pieces of code: each is the code of a condition or a body.

ghost use Rattle.std.specs.Prelude.{◌≡◌, ℕ, List, [], ◌∷◌, ◌++◌, map, option_map, IfSome, OnOk};
ghost use Rattle.ssi_identities.specs.Allowed.{body_of_commands};
ghost use Rattle.ssi_identities.specs.Codes.{IsShort, code_of_body, code_of_cond};
ghost use Rattle.ssi_image.specs.Packed.{piece_or_none};

use crate::body::{write_body, write_commands};
use crate::condition::write_cond;
use ssi_base::OutOfMemory;
use ssi_identities::{Body, Cmd, Cond};
use std::alloc::Global;
use std::marker::Model;

/// What has code: a condition, a body, or commands, which are a body.
pub trait Coded {
    ghost code_of: { Self → List ℕ };

    /// Appends its code.
    fn write(&self, code: &mut Vec<u8>) -> Result<(), OutOfMemory>
        requires { IsShort (code_of self.now) }
        ensures { OnOk result (code.new.items ≡ code.old.items ++ code_of self.now) };
}

impl Coded for Cond {
    ghost code_of = { code_of_cond };

    fn write(&self, code: &mut Vec<u8>) -> Result<(), OutOfMemory> {
        write_cond(code, self)
    }
}

impl Coded for Body {
    ghost code_of = { code_of_body };

    fn write(&self, code: &mut Vec<u8>) -> Result<(), OutOfMemory> {
        write_body(code, self)
    }
}

impl Coded for Vec<Cmd> {
    ghost code_of = { λ commands. code_of_body (body_of_commands commands.items) };

    fn write(&self, code: &mut Vec<u8>) -> Result<(), OutOfMemory> {
        write_commands(code, self.as_slice())
    }
}

/// Pieces of code, one after another, each with just the room that it needs.
#[derive(Drop)]
pub struct Pieces {
    alloc: Global,
    all: Vec<Vec<u8>>,
    /// Where a piece is written before its length is known.
    written: Vec<u8>,
}

impl Model for Pieces {
    ghost use Rattle.std.specs.Prelude.{ℕ, List, map};

    ghost Value = { List (List ℕ) };

    ghost view = { λ pieces. map (λ piece. piece.items) pieces.all.items };
}

impl Pieces {
    /// None yet.
    pub fn new(alloc: Global) -> Pieces
        ensures { result ≡ [] }
    {
        Pieces {
            alloc,
            all: Vec::new(alloc),
            written: Vec::new(alloc),
        }
    }

    /// All of them.
    pub fn into_vec(self) -> Vec<Vec<u8>>
        ensures { map (λ piece. piece.items) result.items ≡ self }
    {
        let Pieces { all, .. } = self;
        all
    }

    /// Adds the code of a condition or a body.
    pub fn add<C: Coded>(&mut self, coded: &C) -> Result<(), OutOfMemory>
        requires { IsShort (C.code_of coded.now) }
        ensures { OnOk result (self.new ≡ self.old ++ C.code_of coded.now ∷ []) }
    {
        self.written.clear();
        coded.write(&mut self.written)?;
        let piece = Vec::from_slice(self.alloc, self.written.as_slice())?;
        self.all.push(piece)?;
        Ok(())
    }

    /// Adds the code of a condition or a body, if there is one.
    pub fn add_if<C: Coded>(&mut self, coded: &Option<C>) -> Result<(), OutOfMemory>
        requires { IfSome coded.now (λ coded. IsShort (C.code_of coded)) }
        ensures { OnOk result (self.new ≡ self.old ++ piece_or_none (option_map C.code_of coded.now)) }
    {
        match coded {
            Some(coded) => self.add(coded),
            None => Ok(()),
        }
    }
}
