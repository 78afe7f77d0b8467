//! The rows of an image: those of a data set, with code in place of conditions and bodies.

use ssi_identities::{Kind, Name, RouteRow, SubRow};
use std::marker::Model;

/// The code of a condition or of a body.
#[derive(Drop)]
pub struct Code {
    /// Its bytes.
    pub bytes: Vec<u8>,
}

impl Model for Code {
    ghost use Rattle.std.specs.Prelude.{ℕ, List};

    ghost Value = { List ℕ };

    ghost view = { λ code. code.bytes.items };
}

/// Points with the tracks that they lie over, and the code of their conditions.
#[derive(Drop)]
pub struct PointsCode {
    /// The points' name.
    pub name: Name,
    /// The tracks' numbers.
    pub tracks: Vec<u16>,
    /// When the points are free to move to normal.
    pub free_normal: Option<Code>,
    /// When the points are free to move to reverse.
    pub free_reverse: Option<Code>,
}

impl Model for PointsCode {
    ghost use Rattle.ssi_image.specs.Packed.{PackedPoints};

    ghost Value = { PackedPoints };

    ghost view = { λ row. record {
      name = row.name;
      tracks = row.tracks.items;
      free_normal = row.free_normal;
      free_reverse = row.free_reverse;
    } };
}

/// A request with the code of its body.
#[derive(Drop)]
pub struct RequestCode {
    /// The request's name.
    pub name: Name,
    /// What it does.
    pub body: Code,
}

impl Model for RequestCode {
    ghost use Rattle.ssi_image.specs.Packed.{PackedRequest};

    ghost Value = { PackedRequest };

    ghost view = { λ row. record { name = row.name; body = row.body } };
}

/// A statement with its code.
#[derive(Drop)]
pub struct StatementCode {
    /// When its commands act.
    pub guard: Code,
    /// Its commands, as a body.
    pub commands: Code,
}

impl Model for StatementCode {
    ghost use Rattle.ssi_image.specs.Packed.{PackedStatement};

    ghost Value = { PackedStatement };

    ghost view = { λ row. record { guard = row.guard; commands = row.commands } };
}

/// A module's address, kind and wiring.
#[derive(Drop)]
pub struct Wiring {
    /// The module's address, 1 to 63.
    pub address: u8,
    /// 0 of points, 1 of signals, 2 of tracks.
    pub kind: u8,
    /// By the pin's number: what it is wired to.
    pub pins: Vec<Option<u16>>,
}

impl Model for Wiring {
    ghost use Rattle.ssi_image.specs.Packed.{Wiring as Wired};

    ghost Value = { Wired };

    ghost view = { λ row. record { address = row.address; kind = row.kind; pins = row.pins.items } };
}

/// By the bit's number, the code of the bits that are sent to a module.
#[derive(Drop)]
pub struct Outputs {
    /// None where a bit has no condition.
    pub bits: Vec<Option<Code>>,
}

impl Model for Outputs {
    ghost use Rattle.std.specs.Prelude.{ℕ, List, Option};

    ghost Value = { List (Option (List ℕ)) };

    ghost view = { λ outputs. outputs.bits.items };
}

/// The rows of an image, each list in written order.
#[derive(Drop)]
pub struct Rows {
    pub points: Vec<PointsCode>,
    pub signals: Vec<Name>,
    pub tracks: Vec<Name>,
    pub routes: Vec<RouteRow>,
    pub subs: Vec<SubRow>,
    pub flags: Vec<Name>,
    pub requests: Vec<RequestCode>,
    pub statements: Vec<StatementCode>,
    pub modules: Vec<Wiring>,
    /// For each module.
    pub outputs: Vec<Outputs>,
    /// For each module.
    pub inputs: Vec<Option<Code>>,
}

impl Model for Rows {
    ghost use Rattle.ssi_image.specs.Packed.{Packed};

    ghost Value = { Packed };

    ghost view = { λ rows. record {
      points = rows.points.items;
      signals = rows.signals.items;
      tracks = rows.tracks.items;
      routes = rows.routes.items;
      subs = rows.subs.items;
      flags = rows.flags.items;
      requests = rows.requests.items;
      statements = rows.statements.items;
      modules = rows.modules.items;
      outputs = rows.outputs.items;
      inputs = rows.inputs.items;
    } };
}

impl Rows {
    ghost use Rattle.std.specs.Prelude.{◌≡◌, option_map, slice_get};
    ghost use Rattle.ssi_image.specs.Packed.{packed_names};

    /// The name of an identity, by its kind and its number.
    pub fn name(&self, kind: Kind, index: u16) -> Option<&Name>
        ensures { option_map (λ name. name.now) result ≡ slice_get (packed_names self.now kind) index }
    {
        let place = usize::from(index);
        match kind {
            Kind::Points => self.points.get(place).map(|row| &row.name),
            Kind::Signal => self.signals.get(place),
            Kind::Track => self.tracks.get(place),
            Kind::Route => self.routes.get(place).map(|row| &row.name),
            Kind::Subroute => self.subs.get(place).map(|row| &row.name),
            Kind::Flag => self.flags.get(place),
            Kind::Request => self.requests.get(place).map(|row| &row.name),
        }
    }
}
