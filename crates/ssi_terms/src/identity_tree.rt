//! Trees of the files of identities, PTS to TFM. Each list is in written order.

use crate::tree::Spot;
use std::marker::Model;

/// An entry of PTS: points and the tracks that they lie over.
#[derive(Drop)]
pub struct PointsEntry {
    /// The points' name.
    pub name: Spot,
    /// The tracks' names.
    pub tracks: Vec<Spot>,
}

impl Model for PointsEntry {
    ghost use Rattle.ssi_terms.specs.Trees.{PointsText};

    ghost Value = { PointsText };

    ghost view = { λ entry. record { name = entry.name; tracks = entry.tracks.items } };
}

/// An entry of RTE: a route, the signal that it begins at and its sub-routes.
#[derive(Drop)]
pub struct RouteEntry {
    /// The route's name.
    pub name: Spot,
    /// The signal's name.
    pub signal: Spot,
    /// The sub-routes' names.
    pub subs: Vec<Spot>,
}

impl Model for RouteEntry {
    ghost use Rattle.ssi_terms.specs.Trees.{RouteText};

    ghost Value = { RouteText };

    ghost view = { λ entry. record { name = entry.name; signal = entry.signal; subs = entry.subs.items } };
}

/// An entry of SUB: a sub-route, its track and how its points have to lie.
#[derive(Drop)]
pub struct SubEntry {
    /// The sub-route's name.
    pub name: Spot,
    /// The track's name.
    pub track: Spot,
    /// The points' names, each with the word for its lie.
    pub lies: Vec<(Spot, Spot)>,
}

impl Model for SubEntry {
    ghost use Rattle.ssi_terms.specs.Trees.{SubText};

    ghost Value = { SubText };

    ghost view = { λ entry. record { name = entry.name; track = entry.track; lies = entry.lies.items } };
}

/// An entry of TFM: a trackside module and what it is wired to.
#[derive(Drop)]
pub struct ModuleEntry {
    /// The module's address.
    pub address: Spot,
    /// The word for its kind.
    pub kind: Spot,
    /// The names of what it is wired to, each with its pin.
    pub pins: Vec<(Spot, Spot)>,
}

impl Model for ModuleEntry {
    ghost use Rattle.ssi_terms.specs.Trees.{ModuleText};

    ghost Value = { ModuleText };

    ghost view = { λ entry. record { address = entry.address; kind = entry.kind; pins = entry.pins.items } };
}

/// The files PTS, SIG, TCS, RTE, SUB, FLG and TFM.
#[derive(Drop)]
pub struct IdentityTree {
    /// The points.
    pub points: Vec<PointsEntry>,
    /// The names of the signals.
    pub signals: Vec<Spot>,
    /// The names of the tracks.
    pub tracks: Vec<Spot>,
    /// The routes.
    pub routes: Vec<RouteEntry>,
    /// The sub-routes.
    pub subs: Vec<SubEntry>,
    /// The names of the flags.
    pub flags: Vec<Spot>,
    /// The trackside modules.
    pub modules: Vec<ModuleEntry>,
}

impl Model for IdentityTree {
    ghost use Rattle.ssi_terms.specs.Trees.{IdentityText};

    ghost Value = { IdentityText };

    ghost view = { λ tree. record {
      points = tree.points.items;
      signals = tree.signals.items;
      tracks = tree.tracks.items;
      routes = tree.routes.items;
      subs = tree.subs.items;
      flags = tree.flags.items;
      modules = tree.modules.items;
    } };
}
