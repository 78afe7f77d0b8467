//! The four bytes of a length, before what it tells of.

ghost use Rattle.std.specs.Prelude.{◌≡◌, ℕ, ◌+◌, ◌≤◌, ◌<◌, ◌^◌, List, ◌++◌, length, IfOk, OnOk};
ghost use Rattle.ssi_identities.specs.Codes.{with_length};
ghost use Rattle.ssi_compiler.specs.Lengths.{no_length};

use ssi_base::OutOfMemory;

/// Leaves four bytes for a length that isn't known yet, and answers their place.
pub fn leave_length(code: &mut Vec<u8>) -> Result<usize, OutOfMemory>
    ensures place { IfOk result (λ place. place ≡ length code.old.items) }
    ensures code { OnOk result (code.new.items ≡ code.old.items ++ no_length) }
{
    let place = code.len();
    code.extend_from_slice(&[0; 4])?;
    Ok(place)
}

/// Writes into the four bytes at the place how many bytes follow them.
pub fn fill_length(code: &mut Vec<u8>, place: usize)
    requires room { place + 4 ≤ length code.old.items }
    requires short { length code.old.items < place + 4 + 2 ^ 32 }
    ensures { (before piece : List ℕ) → length before ≡ place → code.old.items ≡ before ++ no_length ++ piece
        → code.new.items ≡ before ++ with_length piece }
{
    let len = (code.len() - place - 4) as u32;
    code.as_mut_slice()[place..place + 4].copy_from_slice(&len.to_be_bytes());
}
