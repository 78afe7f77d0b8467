//! The names of an image, by which a script tells what it means.

ghost use Rattle.std.specs.Prelude.{◌≡◌, ℕ, [], length, IfOk, OnOk};
ghost use Rattle.ssi_identities.specs.declared.fact.Kind.{Kind as Kinds};
ghost use Rattle.ssi_identities.specs.DataSets.{names_in};
ghost use Rattle.ssi_identities.specs.NameLists.{names_of, with_names};

use crate::image::Image;
use ssi_base::OutOfMemory;
use ssi_identities::{Kind, Names};
use std::alloc::Global;

/// Adds the names of a kind, of which there are so many.
fn add_names(
    alloc: Global,
    image: &Image,
    kind: Kind,
    count: u16,
    names: &mut Names,
) -> Result<(), OutOfMemory>
    requires count { count ≡ length (names_in image.now kind) }
    requires none { names_of names.old kind ≡ [] }
    ensures { OnOk result (names.new ≡ with_names names.old kind (names_in image.now kind)) }
{
    for index in 0..count {
        names.add(alloc, kind, image.name(kind, index))?;
    }
    Ok(())
}

impl Image {
    /// The names of each kind, each with its identity's number.
    pub fn names(&self, alloc: Global) -> Result<Names, OutOfMemory>
        ensures { IfOk result (λ names. (kind : Kinds) → names_of names kind ≡ names_in self.now kind) }
    {
        let counts = self.counts();
        let mut names = Names::new(alloc)?;
        add_names(alloc, self, Kind::Points, counts.points, &mut names)?;
        add_names(alloc, self, Kind::Signal, counts.signals, &mut names)?;
        add_names(alloc, self, Kind::Track, counts.tracks, &mut names)?;
        add_names(alloc, self, Kind::Route, counts.routes, &mut names)?;
        add_names(alloc, self, Kind::Subroute, counts.subs, &mut names)?;
        add_names(alloc, self, Kind::Flag, counts.flags, &mut names)?;
        add_names(alloc, self, Kind::Request, counts.requests, &mut names)?;
        Ok(names)
    }
}
