//! What an image is asked for: the fields of its data set, and its code.

ghost use Rattle.std.specs.Prelude.{◌≡◌, ◌<◌, ℕ, length, map, Some, None, is_some, option_map, slice_get, slice_index_or, [], IfOk, IfSome};
ghost use Rattle.std.specs.List.{IsDistinct};
ghost use Rattle.std.specs.Str.{bytes_eq};
ghost use Rattle.ssi_identities.specs.Codes.{code_of_body, code_of_cond};
ghost use Rattle.ssi_identities.specs.DataSets.{counts_of, name_of, names_in};
ghost use Rattle.ssi_identities.specs.Values.{move_condition_of};
ghost use Rattle.ssi_identities.specs.Wells.{IsWell};
ghost use Rattle.ssi_image.specs.Places.{body_at, cond_at, input_of, output_of, pin_of};
ghost use Rattle.ssi_image.specs.Shown.{IsStatementCode};

use crate::image::Image;
use crate::packed::Code;
use crate::places::{BodyAt, CondAt};
use ssi_identities::{Counts, Kind};

/// The bytes of some code, if there is any.
fn bytes_of(code: Option<&Code>) -> Option<&[u8]>
    ensures { option_map (λ bytes. bytes.now) result ≡ option_map (λ shown. shown.now) code.entry }
{
    match code {
        Some(code) => Some(code.bytes.as_slice()),
        None => None,
    }
}

impl Image {
    /// How many identities of each kind there are.
    pub fn counts(&self) -> Counts
        ensures counts { result ≡ counts_of self.now }
        ensures well { IsWell self.now }
    {
        Counts {
            points: self.rows.points.len() as u16,
            signals: self.rows.signals.len() as u16,
            tracks: self.rows.tracks.len() as u16,
            routes: self.rows.routes.len() as u16,
            subs: self.rows.subs.len() as u16,
            flags: self.rows.flags.len() as u16,
            requests: self.rows.requests.len() as u16,
        }
    }

    /// How many statements there are, at most 4,096.
    pub fn statement_count(&self) -> u16
        ensures { result ≡ length self.now.statements }
    {
        self.rows.statements.len() as u16
    }

    /// How many modules there are, at most 63.
    pub fn module_count(&self) -> u8
        ensures { result ≡ length self.now.modules }
    {
        self.rows.modules.len() as u8
    }

    /// The address of a module, 1 to 63.
    pub fn address(&self, module: u8) -> u8
        requires { «module» < length self.now.modules }
        ensures { Some result ≡ option_map (λ row. row.address) (slice_get self.now.modules «module») }
    {
        self.rows.modules[usize::from(module)].address
    }

    /// The kind of a module: 0 of points, 1 of signals, 2 of tracks.
    pub fn kind(&self, module: u8) -> u8
        requires { «module» < length self.now.modules }
        ensures { Some result ≡ option_map (λ row. row.kind) (slice_get self.now.modules «module») }
    {
        self.rows.modules[usize::from(module)].kind
    }

    /// The number of the identity that a pin of a module is wired to; none where it is empty, or where the module hasn't such a pin.
    pub fn pin(&self, module: u8, pin: u8) -> Option<u16>
        requires { «module» < length self.now.modules }
        ensures { result ≡ pin_of self.now «module» pin }
    {
        match self.rows.modules[usize::from(module)]
            .pins
            .get(usize::from(pin))
        {
            Some(wired) => *wired,
            None => None,
        }
    }

    /// The name of an identity, by its kind and its number; empty where there is no such identity.
    pub fn name(&self, kind: Kind, index: u16) -> &[u8]
        ensures name { result.now ≡ name_of self.now kind index }
        ensures differ { IsDistinct bytes_eq (names_in self.now kind) }
    {
        match self.rows.name(kind, index) {
            Some(name) => name.bytes(),
            None => b"",
        }
    }

    /// The code of the condition under which points are free to move to a lie.
    pub fn move_code(&self, points: u16, reverse: bool) -> Option<&[u8]>
        ensures code { option_map (λ bytes. bytes.now) result ≡ option_map code_of_cond (move_condition_of self.now points reverse) }
        ensures well { IsWell self.now }
    {
        let row = self.rows.points.get(usize::from(points))?;
        let code = if reverse {
            row.free_reverse.as_ref()
        } else {
            row.free_normal.as_ref()
        };
        bytes_of(code)
    }

    /// The code of the condition of a bit that is sent to a module.
    pub fn output_code(&self, module: u8, bit: u8) -> Option<&[u8]>
        ensures code { option_map (λ bytes. bytes.now) result ≡ option_map code_of_cond (output_of self.now «module» bit) }
        ensures well { IsWell self.now }
    {
        let outputs = self.rows.outputs.get(usize::from(module))?;
        let code = outputs.bits.get(usize::from(bit))?;
        bytes_of(code.as_ref())
    }

    /// The code of what a request does.
    pub fn request_code(&self, request: u16) -> Option<&[u8]>
        ensures code { option_map (λ bytes. bytes.now) result ≡ option_map (λ row. code_of_body row.body) (slice_get self.now.requests request) }
        ensures well { IsWell self.now }
    {
        let row = self.rows.requests.get(usize::from(request))?;
        Some(row.body.bytes.as_slice())
    }

    /// The code of a statement's guard, and that of its commands as a body.
    pub fn statement_code(&self, statement: u16) -> Option<(&[u8], &[u8])>
        ensures code { IsStatementCode result (slice_get self.now.statements statement) }
        ensures well { IsWell self.now }
    {
        let row = self.rows.statements.get(usize::from(statement))?;
        Some((row.guard.bytes.as_slice(), row.commands.bytes.as_slice()))
    }

    /// The code of what a report of a module does.
    pub fn input_code(&self, module: u8) -> Option<&[u8]>
        ensures code { option_map (λ bytes. bytes.now) result ≡ option_map code_of_body (input_of self.now «module») }
        ensures well { IsWell self.now }
    {
        let code = self.rows.inputs.get(usize::from(module))?;
        bytes_of(code.as_ref())
    }

    /// Whether a condition stands at a place.
    pub fn has_cond(&self, place: CondAt) -> bool
        ensures { result ≡ is_some (cond_at self.now place) }
    {
        match place {
            CondAt::Output { module, bit } => self.output_code(module, bit).is_some(),
            CondAt::Free { points, reverse } => self.move_code(points, reverse).is_some(),
        }
    }

    /// Whether a body stands at a place.
    pub fn has_body(&self, place: BodyAt) -> bool
        ensures { result ≡ is_some (body_at self.now place) }
    {
        match place {
            BodyAt::Request(request) => self.request_code(request).is_some(),
            BodyAt::Statement(statement) => self.statement_code(statement).is_some(),
            BodyAt::Input(module) => self.input_code(module).is_some(),
        }
    }
}
