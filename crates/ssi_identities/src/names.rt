//! Names numbered, per kind, in the order of their first declaration.

ghost use Rattle.std.specs.Prelude.{◌≡◌, ◌<◌, [], ◌∷◌, ◌++◌, length, None, IfOk, OnOk, OnErr};
ghost use Rattle.ssi_identities.specs.NameLists.{IsAdded, IsEmptyOfEach, names_of, number_of, with_names};

use crate::fact::Kind;
use indexmap::IndexSet;
use ssi_base::OutOfMemory;
use std::alloc::Global;
use std::marker::Model;

/// How many kinds of identities there are.
const KINDS: usize = 7;

/// The number of a name that was added.
#[derive(Clone, Copy, Debug, PartialEq, Eq)]
pub enum Added {
    /// The name wasn't there, and has this number now.
    New(u16),
    /// The name was there, with this number.
    Old(u16),
}

/// The names of one kind.
#[derive(Drop)]
struct Texts {
    set: IndexSet<Vec<u8>>,
}

impl Model for Texts {
    ghost use Rattle.std.specs.Prelude.{ℕ, List, length, map, ◌<◌};

    ghost Value = { List (List ℕ) };

    ghost view = { λ texts. map (λ text. text.items) texts.set.keys };

    ghost invariant = { λ texts. length texts.set.keys < 65536 };
}

impl Texts {
    fn new(alloc: Global) -> Texts
        ensures { result ≡ [] }
    {
        Texts {
            set: IndexSet::new(alloc),
        }
    }

    #[tactic(auto, using(crate::proofs::Places::place_rules))]
    fn find(&self, text: &[u8]) -> Option<u16>
        ensures { result ≡ number_of self.now text.now }
    {
        match self.set.get_index_of(text) {
            Some(place) => Some(place as u16),
            None => None,
        }
    }

    fn add(&mut self, alloc: Global, text: &[u8]) -> Result<Added, OutOfMemory>
        requires { length self.old < 65535 }
        ensures ok { IfOk result (λ added. IsAdded self.old self.new text.now added) }
        ensures err { OnErr result (self.new ≡ self.old) }
    {
        match self.find(text) {
            Some(number) => Ok(Added::Old(number)),
            None => Ok(Added::New(self.append(alloc, text)?)),
        }
    }

    /// Adds a name that isn't there, and answers its number.
    fn append(&mut self, alloc: Global, text: &[u8]) -> Result<u16, OutOfMemory>
        requires room { length self.old < 65535 }
        requires absent { number_of self.old text.now ≡ None }
        ensures number { IfOk result (λ number. number ≡ length self.old) }
        ensures ok { OnOk result (self.new ≡ self.old ++ text.now ∷ []) }
        ensures err { OnErr result (self.new ≡ self.old) }
    {
        let number = self.set.len() as u16;
        self.set.insert(Vec::from_slice(alloc, text)?)?;
        Ok(number)
    }
}

/// The names of each kind, at most 65,535 of a kind. A name's number is its place in the list of its kind,
/// and stays.
#[derive(Drop)]
pub struct Names {
    lists: Vec<Texts>,
}

impl Model for Names {
    ghost use Rattle.std.specs.Prelude.{ℕ, List, length, ◌≡◌};

    ghost Value = { List (List (List ℕ)) };

    ghost view = { λ names. names.lists.items };

    ghost invariant = { λ names. length names.lists.items ≡ 7 };
}

impl Names {
    /// No name of any kind.
    pub fn new(alloc: Global) -> Result<Names, OutOfMemory>
        ensures { IfOk result IsEmptyOfEach }
    {
        let mut lists = Vec::new(alloc);
        for _kind in 0..KINDS {
            lists.push(Texts::new(alloc))?;
        }
        Ok(Names { lists })
    }

    /// Adds a name of a kind that has room for one more, unless it is there. The other kinds stay as they
    /// were. After an error nothing has changed.
    pub fn add(&mut self, alloc: Global, kind: Kind, text: &[u8]) -> Result<Added, OutOfMemory>
        requires { length (names_of self.old kind) < 65535 }
        ensures ok { IfOk result (IsAdded (names_of self.old kind) (names_of self.new kind) text.now) }
        ensures others { self.new ≡ with_names self.old kind (names_of self.new kind) }
        ensures err { OnErr result (self.new ≡ self.old) }
    {
        self.lists[kind as usize].add(alloc, text)
    }

    /// The number of a name of a kind; none where it isn't there.
    pub fn find(&self, kind: Kind, text: &[u8]) -> Option<u16>
        ensures { result ≡ number_of (names_of self.now kind) text.now }
    {
        self.lists[kind as usize].find(text)
    }
}
