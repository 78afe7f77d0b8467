//! Names of identities.

ghost use Rattle.std.specs.Prelude.{◌≡◌, ◌≤◌, length};

use arrayvec::ArrayVec;
use std::marker::Model;

/// The name of an identity: at most 16 bytes.
#[derive(Drop)]
pub struct Name {
    text: ArrayVec<u8, 16>,
}

impl Model for Name {
    ghost use Rattle.std.specs.Prelude.{ℕ, ◌≤◌, List, length};

    ghost Value = { List ℕ };

    ghost view = { λ name. name.text.items };

    ghost invariant = { λ name. length name.text.items ≤ 16 };
}

impl Name {
    /// The name with these bytes.
    pub fn new(text: &[u8]) -> Name
        requires { length text.now ≤ 16 }
        ensures { result ≡ text.now }
    {
        let mut name = ArrayVec::new();
        match name.try_extend_from_slice(text) {
            Ok(()) => Name { text: name },
            Err(_) => unreachable!(),
        }
    }

    /// Its bytes.
    pub fn bytes(&self) -> &[u8]
        ensures bytes { result.now ≡ self.now }
        ensures short { length result.now ≤ 16 }
    {
        self.text.as_slice()
    }
}
