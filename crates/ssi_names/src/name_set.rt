//! Sets of names, of any size.

ghost use Rattle.std.specs.Prelude.{◌≡◌, [], ◌∷◌, ◌++◌, false, length, position, IfOk, OnOk, OnErr};
ghost use Rattle.std.specs.Str.{bytes_eq};
ghost use Rattle.ssi_names.specs.NameLists.{is_among, with_name};

use indexmap::IndexSet;
use ssi_base::OutOfMemory;
use std::alloc::Global;
use std::marker::Model;

/// Different names, in the order in which they were added. A name is found by its hash.
#[derive(Drop)]
pub struct NameSet {
    names: IndexSet<Vec<u8>>,
}

impl Model for NameSet {
    ghost use Rattle.std.specs.Prelude.{ℕ, List, map};

    ghost Value = { List (List ℕ) };

    ghost view = { λ set. map (λ text. text.items) set.names.keys };
}

impl NameSet {
    /// No names.
    pub fn new(alloc: Global) -> NameSet
        ensures { result ≡ [] }
    {
        NameSet {
            names: IndexSet::new(alloc),
        }
    }

    /// How many names there are.
    pub fn len(&self) -> usize
        ensures { result ≡ length self.now }
    {
        self.names.len()
    }

    /// Whether the name is there.
    #[tactic(auto, using(crate::proofs::Places::place_rules))]
    pub fn contains(&self, name: &[u8]) -> bool
        ensures { result ≡ is_among name.now self.now }
    {
        self.names.contains(name)
    }

    /// The place of a name; none where it isn't there.
    #[tactic(auto, using(crate::proofs::Places::place_rules))]
    pub fn find(&self, name: &[u8]) -> Option<usize>
        ensures { result ≡ position (bytes_eq name.now) self.now }
    {
        self.names.get_index_of(name)
    }

    /// Adds a name, and answers whether it was there. After an error nothing has changed.
    pub fn add(&mut self, alloc: Global, name: &[u8]) -> Result<bool, OutOfMemory>
        ensures again { IfOk result (λ again. again ≡ is_among name.now self.old) }
        ensures added { OnOk result (self.new ≡ with_name self.old name.now) }
        ensures err { OnErr result (self.new ≡ self.old) }
    {
        if self.contains(name) {
            return Ok(true);
        }
        self.append(alloc, name)?;
        Ok(false)
    }

    /// Adds a name that isn't there.
    fn append(&mut self, alloc: Global, name: &[u8]) -> Result<(), OutOfMemory>
        requires { is_among name.now self.old ≡ false }
        ensures added { OnOk result (self.new ≡ self.old ++ name.now ∷ []) }
        ensures err { OnErr result (self.new ≡ self.old) }
    {
        self.names.insert(Vec::from_slice(alloc, name)?)?;
        Ok(())
    }
}
