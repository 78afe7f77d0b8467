//! What items of conditions and bodies begin with.

ghost use Rattle.std.specs.Prelude.{◌≡◌};
ghost use Rattle.ssi_identities.specs.Opcodes.{body_byte_of, body_op_of, cond_byte_of, cond_op_of};

/// What the first byte of a condition's item says: the kind of the item, and what is wanted.
#[derive(Clone, Copy, Debug, PartialEq, Eq)]
pub enum CondOp {
    /// A fact is to be true, or false.
    Fact(bool),
    /// A bit is to be 1, or 0.
    Bit(bool),
    /// Points are to be free to reverse, or to normal.
    Free(bool),
    /// One of some alternatives is to hold.
    Group,
}

impl CondOp {
    /// Its byte.
    pub fn byte(self) -> u8
        ensures { result ≡ cond_byte_of self }
    {
        match self {
            CondOp::Fact(false) => 0x10,
            CondOp::Fact(true) => 0x11,
            CondOp::Bit(false) => 0x12,
            CondOp::Bit(true) => 0x13,
            CondOp::Free(false) => 0x14,
            CondOp::Free(true) => 0x15,
            CondOp::Group => 0x16,
        }
    }

    /// What a byte says; `None` where no item of a condition begins with it.
    pub fn of(byte: u8) -> Option<CondOp>
        ensures { result ≡ cond_op_of byte }
    {
        match byte {
            0x10 => Some(CondOp::Fact(false)),
            0x11 => Some(CondOp::Fact(true)),
            0x12 => Some(CondOp::Bit(false)),
            0x13 => Some(CondOp::Bit(true)),
            0x14 => Some(CondOp::Free(false)),
            0x15 => Some(CondOp::Free(true)),
            0x16 => Some(CondOp::Group),
            _ => None,
        }
    }
}

/// What the first byte of a body's item says.
#[derive(Clone, Copy, Debug, PartialEq, Eq)]
pub enum BodyOp {
    /// A fact becomes true, or false.
    Set(bool),
    /// A choice.
    If,
}

impl BodyOp {
    /// Its byte.
    pub fn byte(self) -> u8
        ensures { result ≡ body_byte_of self }
    {
        match self {
            BodyOp::Set(false) => 0x20,
            BodyOp::Set(true) => 0x21,
            BodyOp::If => 0x22,
        }
    }

    /// What a byte says; `None` where no item of a body begins with it.
    pub fn of(byte: u8) -> Option<BodyOp>
        ensures { result ≡ body_op_of byte }
    {
        match byte {
            0x20 => Some(BodyOp::Set(false)),
            0x21 => Some(BodyOp::Set(true)),
            0x22 => Some(BodyOp::If),
            _ => None,
        }
    }
}
