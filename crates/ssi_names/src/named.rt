//! Entries that go by a name, or by an address.

ghost use Rattle.std.specs.Prelude.{◌≡◌};
ghost use Rattle.ssi_terms.specs.declared.tree.Spot.{Spot};

use ssi_terms::{BodyTree, ModuleEntry, PointsEntry, RouteEntry, Spot, SubEntry};

/// An entry that goes by a name, or by an address.
pub trait Named {
    ghost name_of: { Self → Spot };

    /// Where its name or its address stands.
    fn name(&self) -> Spot
        ensures { result ≡ name_of self.now };
}

impl Named for Spot {
    ghost name_of = { λ spot. spot };

    fn name(&self) -> Spot {
        *self
    }
}

impl Named for PointsEntry {
    ghost name_of = { λ points. points.name };

    fn name(&self) -> Spot {
        self.name
    }
}

impl Named for RouteEntry {
    ghost name_of = { λ route. route.name };

    fn name(&self) -> Spot {
        self.name
    }
}

impl Named for SubEntry {
    ghost name_of = { λ sub. sub.name };

    fn name(&self) -> Spot {
        self.name
    }
}

impl Named for ModuleEntry {
    ghost name_of = { λ entry. entry.address };

    fn name(&self) -> Spot {
        self.address
    }
}

impl Named for (Spot, BodyTree) {
    ghost name_of = { λ request. request.0 };

    fn name(&self) -> Spot {
        self.0
    }
}
