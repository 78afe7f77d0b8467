//! The data set of a layout.

use crate::fact::{Counts, Kind};
use crate::name::Name;
use crate::rule::{Body, Cmd, Cond};
use std::marker::Model;

/// Points with the tracks that they lie over, and the conditions under which they are free to move.
#[derive(Drop)]
pub struct PointsRow {
    /// The points' name.
    pub name: Name,
    /// The tracks' numbers.
    pub tracks: Vec<u16>,
    /// When the points are free to move to normal; never where there is no condition.
    pub free_normal: Option<Cond>,
    /// When the points are free to move to reverse; never where there is no condition.
    pub free_reverse: Option<Cond>,
}

impl Model for PointsRow {
    ghost use Rattle.std.specs.Coded.{codes};
    ghost use Rattle.ssi_identities.specs.contracts.rule.CondItem as cond_item;
    ghost use Rattle.ssi_identities.specs.DataSets.{PointsPlan};

    ghost Value = { PointsPlan };

    ghost coded = { Prim.hlevel (codes, cond_item.the_row.coded) };

    ghost view = { λ row. record {
      name = row.name;
      tracks = row.tracks.items;
      free_normal = row.free_normal;
      free_reverse = row.free_reverse;
    } };
}

/// A route with its signal and its sub-routes.
#[derive(Drop)]
pub struct RouteRow {
    /// The route's name.
    pub name: Name,
    /// The number of the signal that the route begins at.
    pub signal: u16,
    /// The sub-routes' numbers.
    pub subs: Vec<u16>,
}

impl Model for RouteRow {
    ghost use Rattle.ssi_identities.specs.DataSets.{RoutePlan};

    ghost Value = { RoutePlan };

    ghost view = { λ row. record { name = row.name; signal = row.signal; subs = row.subs.items } };
}

/// A sub-route with its track and its points.
#[derive(Drop)]
pub struct SubRow {
    /// The sub-route's name.
    pub name: Name,
    /// The track's number.
    pub track: u16,
    /// The points' numbers, each with whether the points have to lie reverse.
    pub lies: Vec<(u16, bool)>,
}

impl Model for SubRow {
    ghost use Rattle.ssi_identities.specs.DataSets.{SubPlan};

    ghost Value = { SubPlan };

    ghost view = { λ row. record { name = row.name; track = row.track; lies = row.lies.items } };
}

/// A request with its body.
#[derive(Drop)]
pub struct RequestRow {
    /// The request's name.
    pub name: Name,
    /// What the request does when it is taken.
    pub body: Body,
}

/// A statement: its commands act where its guard holds. The guard is valued once, before them.
#[derive(Drop)]
pub struct Stmt {
    /// In written order.
    pub commands: Vec<Cmd>,
    /// When they act.
    pub guard: Cond,
}

impl Model for Stmt {
    ghost use Rattle.std.specs.Coded.{codes};
    ghost use Rattle.ssi_identities.specs.contracts.rule.CondItem as cond_item;
    ghost use Rattle.ssi_identities.specs.DataSets.{StmtPlan};

    ghost Value = { StmtPlan };

    ghost coded = { Prim.hlevel (codes, cond_item.the_row.coded) };

    ghost view = { λ row. record { commands = row.commands.items; guard = row.guard } };
}

/// A trackside module with its wiring, the conditions of the bits sent to it, and what its reports do.
#[derive(Drop)]
pub struct ModuleRow {
    /// The module's address, 1 to 63.
    pub address: u8,
    /// 0 of points, 1 of signals, 2 of tracks.
    pub kind: u8,
    /// By the pin's number: the number of the identity that it is wired to; none where it is empty.
    /// Modules of points have 2 pins, the others 8.
    pub pins: Vec<Option<u16>>,
    /// By the bit's number, 0 to 7, 0 being the lowest: when the bit is 1; never where there is no
    /// condition.
    pub outputs: Vec<Option<Cond>>,
    /// What a report of the module does; nothing where there is no body.
    pub input: Option<Body>,
}

impl Model for ModuleRow {
    ghost use Rattle.std.specs.Coded.{codes};
    ghost use Rattle.ssi_identities.specs.contracts.rule.BodyItem as body_item;
    ghost use Rattle.ssi_identities.specs.contracts.rule.CondItem as cond_item;
    ghost use Rattle.ssi_identities.specs.DataSets.{ModulePlan};

    ghost Value = { ModulePlan };

    ghost coded = { Prim.hlevel (codes, cond_item.the_row.coded, body_item.the_row.coded) };

    ghost view = { λ row. record {
      address = row.address;
      kind = row.kind;
      pins = row.pins.items;
      outputs = row.outputs.items;
      input = row.input;
    } };
}

/// The data of a layout, each list in written order. An identity's number is its place in the list of
/// its kind.
#[derive(Drop)]
pub struct DataSet {
    /// The points.
    pub points: Vec<PointsRow>,
    /// The names of the signals.
    pub signals: Vec<Name>,
    /// The names of the tracks.
    pub tracks: Vec<Name>,
    /// The routes.
    pub routes: Vec<RouteRow>,
    /// The sub-routes.
    pub subs: Vec<SubRow>,
    /// The names of the flags.
    pub flags: Vec<Name>,
    /// The requests.
    pub requests: Vec<RequestRow>,
    /// The statements. Their turns come round over the minor cycles, in this order.
    pub statements: Vec<Stmt>,
    /// The trackside modules.
    pub modules: Vec<ModuleRow>,
}

impl Model for DataSet {
    ghost use Rattle.std.specs.Coded.{codes};
    ghost use Rattle.ssi_identities.specs.contracts.rule.BodyItem as body_item;
    ghost use Rattle.ssi_identities.specs.contracts.rule.CondItem as cond_item;
    ghost use Rattle.ssi_identities.specs.DataSets.{Plan};

    ghost Value = { Plan };

    ghost coded = { Prim.hlevel (codes, cond_item.the_row.coded, body_item.the_row.coded) };

    ghost view = { λ plan. record {
      points = plan.points.items;
      signals = plan.signals.items;
      tracks = plan.tracks.items;
      routes = plan.routes.items;
      subs = plan.subs.items;
      flags = plan.flags.items;
      requests = plan.requests.items;
      statements = plan.statements.items;
      modules = plan.modules.items;
    } };
}

impl DataSet {
    ghost use Rattle.std.specs.Prelude.{◌≡◌};
    ghost use Rattle.ssi_identities.specs.DataSets.{IsCountable, counts_of, name_of};

    /// How many identities of each kind there are.
    pub fn counts(&self) -> Counts
        requires { IsCountable self.now }
        ensures { result ≡ counts_of self.now }
    {
        Counts {
            points: self.points.len() as u16,
            signals: self.signals.len() as u16,
            tracks: self.tracks.len() as u16,
            routes: self.routes.len() as u16,
            subs: self.subs.len() as u16,
            flags: self.flags.len() as u16,
            requests: self.requests.len() as u16,
        }
    }

    /// The name of an identity, by its kind and its number; empty where there is no such identity.
    pub fn name(&self, kind: Kind, index: u16) -> &[u8]
        ensures { result.now ≡ name_of self.now kind index }
    {
        let place = usize::from(index);
        let name = match kind {
            Kind::Points => self.points.get(place).map(|row| &row.name),
            Kind::Signal => self.signals.get(place),
            Kind::Track => self.tracks.get(place),
            Kind::Route => self.routes.get(place).map(|row| &row.name),
            Kind::Subroute => self.subs.get(place).map(|row| &row.name),
            Kind::Flag => self.flags.get(place),
            Kind::Request => self.requests.get(place).map(|row| &row.name),
        };
        match name {
            Some(name) => name.bytes(),
            None => b"",
        }
    }
}
