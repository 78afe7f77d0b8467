//! What stands at the front of some code.

ghost use Rattle.std.specs.Prelude.{◌≡◌, ℕ, List, ◌∷◌, ◌++◌, ◌<◌, ◌≤◌, ◌+◌, ◌^◌, length};
ghost use Rattle.std.specs.Int.{w16, to_be_bytes};
ghost use Rattle.ssi_identities.specs.Codes.{IsShort, with_length};
ghost use Rattle.ssi_identities.specs.Opcodes.{body_byte_of, cond_byte_of};
ghost use Rattle.ssi_eval.specs.Pieces.{BeginsItem, BeginsPart, BeginsPiece};

use ssi_identities::{BodyOp, CondOp};

/// The first byte, and what follows it.
pub fn first(bytes: &[u8]) -> (u8, &[u8])
    requires { 0 < length bytes.now }
    ensures { bytes.now ≡ result.0 ∷ result.1.now }
{
    match bytes {
        [byte, rest @ ..] => (*byte, rest),
        [] => unreachable!(),
    }
}

/// What the first byte says of an item of a condition, and what follows it.
pub fn cond_op(bytes: &[u8]) -> (CondOp, &[u8])
    requires { BeginsItem bytes.now }
    ensures { bytes.now ≡ cond_byte_of result.0 ∷ result.1.now }
{
    let (byte, operand) = first(bytes);
    match CondOp::of(byte) {
        Some(op) => (op, operand),
        None => unreachable!(),
    }
}

/// What the first byte says of an item of a body, and what follows it.
pub fn body_op(bytes: &[u8]) -> (BodyOp, &[u8])
    requires { BeginsPart bytes.now }
    ensures { bytes.now ≡ body_byte_of result.0 ∷ result.1.now }
{
    let (byte, operand) = first(bytes);
    match BodyOp::of(byte) {
        Some(op) => (op, operand),
        None => unreachable!(),
    }
}

/// The number in the first two bytes, and what follows them.
pub fn number(bytes: &[u8]) -> (u16, &[u8])
    requires { 2 ≤ length bytes.now }
    ensures value { (n : ℕ) (rest : List ℕ) → n < 2 ^ 16 → bytes.now ≡ to_be_bytes w16 n ++ rest
        → (result.0 ≡ n) × (result.1.now ≡ rest) }
    ensures len { length result.1.now + 2 ≡ length bytes.now }
{
    match bytes {
        [high, low, rest @ ..] => (u16::from_be_bytes([*high, *low]), rest),
        _ => unreachable!(),
    }
}

/// The piece whose length stands in the first four bytes, and what follows it.
pub fn piece(bytes: &[u8]) -> (&[u8], &[u8])
    requires { BeginsPiece bytes.now }
    ensures { (piece rest : List ℕ) → IsShort piece → bytes.now ≡ with_length piece ++ rest
        → (result.0.now ≡ piece) × (result.1.now ≡ rest) }
{
    match bytes {
        [a, b, c, d, rest @ ..] => rest.split_at(u32::from_be_bytes([*a, *b, *c, *d]) as usize),
        _ => unreachable!(),
    }
}
