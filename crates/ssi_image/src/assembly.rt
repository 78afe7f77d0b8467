//! Rows of an image, made of those of a data set and of pieces of code.

ghost use Rattle.std.specs.Prelude.{◌≡◌, ◌++◌, [], ℕ, List, map, option_map, IfOk, Some};
ghost use Rattle.std.specs.List.{flat_map};
ghost use Rattle.ssi_identities.specs.Codes.{code_of_cond};
ghost use Rattle.ssi_image.specs.Packed as spec;
ghost use Rattle.ssi_image.specs.Packed.{packed_of, piece_or_none, pieces_of as pieces_of_plan};

use crate::packed::{Code, Outputs, PointsCode, RequestCode, Rows, StatementCode, Wiring};
use crate::pieces::Pieces;
use ssi_base::OutOfMemory;
use ssi_identities::{
    Cond, DataSet, ModuleRow, Name, PointsRow, RequestRow, RouteRow, Stmt, SubRow,
};
use std::alloc::Global;

/// A row of an image, made of a row of a data set and of the pieces of code that it has.
trait Packs<X>: Drop {
    ghost pieces_of: { X → List (List ℕ) };

    ghost packed: { X → Self };

    /// The row, with its pieces taken.
    fn pack(alloc: Global, row: &X, pieces: &mut Pieces) -> Result<Self, OutOfMemory>
        requires { (rest : List (List ℕ)) × (pieces.old ≡ pieces_of row.now ++ rest) }
        ensures made { IfOk result (λ made. made ≡ packed row.now) }
        ensures taken { IfOk result (λ made. pieces.old ≡ pieces_of row.now ++ pieces.new) };
}

/// The rows of an image, with their pieces taken.
fn pack_all<X, P: Packs<X>>(
    alloc: Global,
    rows: &[X],
    pieces: &mut Pieces,
) -> Result<Vec<P>, OutOfMemory>
    requires { (rest : List (List ℕ)) × (pieces.old ≡ flat_map P.pieces_of rows.now ++ rest) }
    ensures made { IfOk result (λ made. made.items ≡ map P.packed rows.now) }
    ensures taken { IfOk result (λ made. pieces.old ≡ flat_map P.pieces_of rows.now ++ pieces.new) }
{
    let mut made = Vec::with_capacity(alloc, rows.len())?;
    for row in rows {
        made.push(P::pack(alloc, row, pieces)?)?;
    }
    Ok(made)
}

/// A row of an image that has no code, made of a row of a data set.
trait CopyOf<X>: Drop {
    ghost copied: { X → Self };

    /// The row.
    fn copy_of(alloc: Global, row: &X) -> Result<Self, OutOfMemory>
        ensures { IfOk result (λ made. made ≡ copied row.now) };
}

/// The rows of an image that have no code.
fn copy_all<X, C: CopyOf<X>>(alloc: Global, rows: &[X]) -> Result<Vec<C>, OutOfMemory>
    ensures { IfOk result (λ made. made.items ≡ map C.copied rows.now) }
{
    let mut made = Vec::with_capacity(alloc, rows.len())?;
    for row in rows {
        made.push(C::copy_of(alloc, row)?)?;
    }
    Ok(made)
}

/// A name once more.
fn name_of(name: &Name) -> Name
    ensures { result ≡ name.now }
{
    Name::new(name.bytes())
}

impl CopyOf<Name> for Name {
    ghost copied = { λ name. name };

    fn copy_of(_alloc: Global, row: &Name) -> Result<Name, OutOfMemory> {
        Ok(name_of(row))
    }
}

impl CopyOf<RouteRow> for RouteRow {
    ghost copied = { λ row. row };

    fn copy_of(alloc: Global, row: &RouteRow) -> Result<RouteRow, OutOfMemory> {
        Ok(RouteRow {
            name: name_of(&row.name),
            signal: row.signal,
            subs: Vec::from_slice(alloc, row.subs.as_slice())?,
        })
    }
}

impl CopyOf<SubRow> for SubRow {
    ghost copied = { λ row. row };

    fn copy_of(alloc: Global, row: &SubRow) -> Result<SubRow, OutOfMemory> {
        Ok(SubRow {
            name: name_of(&row.name),
            track: row.track,
            lies: Vec::from_slice(alloc, row.lies.as_slice())?,
        })
    }
}

impl CopyOf<ModuleRow> for Wiring {
    ghost copied = { spec.wiring_of };

    fn copy_of(alloc: Global, row: &ModuleRow) -> Result<Wiring, OutOfMemory> {
        Ok(Wiring {
            address: row.address,
            kind: row.kind,
            pins: Vec::from_slice(alloc, row.pins.as_slice())?,
        })
    }
}

impl Packs<PointsRow> for PointsCode {
    ghost pieces_of = { spec.move_pieces };

    ghost packed = { spec.packed_points };

    fn pack(
        alloc: Global,
        row: &PointsRow,
        pieces: &mut Pieces,
    ) -> Result<PointsCode, OutOfMemory> {
        let tracks = Vec::from_slice(alloc, row.tracks.as_slice())?;
        let free_normal = pieces.take_if(row.free_normal.is_some());
        let free_reverse = pieces.take_if(row.free_reverse.is_some());
        Ok(PointsCode {
            name: name_of(&row.name),
            tracks,
            free_normal,
            free_reverse,
        })
    }
}

impl Packs<RequestRow> for RequestCode {
    ghost pieces_of = { spec.request_pieces };

    ghost packed = { spec.packed_request };

    fn pack(
        _alloc: Global,
        row: &RequestRow,
        pieces: &mut Pieces,
    ) -> Result<RequestCode, OutOfMemory> {
        let name = name_of(&row.name);
        let body = pieces.take();
        Ok(RequestCode { name, body })
    }
}

impl Packs<Stmt> for StatementCode {
    ghost pieces_of = { spec.statement_pieces };

    ghost packed = { spec.packed_statement };

    fn pack(
        _alloc: Global,
        _row: &Stmt,
        pieces: &mut Pieces,
    ) -> Result<StatementCode, OutOfMemory> {
        let guard = pieces.take();
        let commands = pieces.take();
        Ok(StatementCode { guard, commands })
    }
}

impl Packs<Option<Cond>> for Option<Code> {
    ghost pieces_of = { λ row. piece_or_none (option_map code_of_cond row) };

    ghost packed = { option_map code_of_cond };

    fn pack(
        _alloc: Global,
        row: &Option<Cond>,
        pieces: &mut Pieces,
    ) -> Result<Option<Code>, OutOfMemory> {
        Ok(pieces.take_if(row.is_some()))
    }
}

impl Packs<ModuleRow> for Outputs {
    ghost pieces_of = { spec.output_pieces };

    ghost packed = { spec.packed_outputs };

    fn pack(alloc: Global, row: &ModuleRow, pieces: &mut Pieces) -> Result<Outputs, OutOfMemory> {
        let bits = pack_all(alloc, row.outputs.as_slice(), pieces)?;
        Ok(Outputs { bits })
    }
}

impl Packs<ModuleRow> for Option<Code> {
    ghost pieces_of = { spec.input_pieces };

    ghost packed = { spec.packed_input };

    fn pack(
        _alloc: Global,
        row: &ModuleRow,
        pieces: &mut Pieces,
    ) -> Result<Option<Code>, OutOfMemory> {
        Ok(pieces.take_if(row.input.is_some()))
    }
}

/// The rows of an image of a data set, made of all of its code.
pub fn rows(alloc: Global, plan: &DataSet, code: Vec<Vec<u8>>) -> Result<Rows, OutOfMemory>
    requires { map (λ piece. piece.items) code.items ≡ pieces_of_plan plan.now }
    ensures { IfOk result (λ rows. rows ≡ packed_of plan.now) }
{
    let mut pieces = Pieces::new(code);
    let points = pack_all(alloc, plan.points.as_slice(), &mut pieces)?;
    let requests = pack_all(alloc, plan.requests.as_slice(), &mut pieces)?;
    let statements = pack_all(alloc, plan.statements.as_slice(), &mut pieces)?;
    let outputs = pack_all(alloc, plan.modules.as_slice(), &mut pieces)?;
    let inputs = pack_all(alloc, plan.modules.as_slice(), &mut pieces)?;
    Ok(Rows {
        points,
        signals: copy_all(alloc, plan.signals.as_slice())?,
        tracks: copy_all(alloc, plan.tracks.as_slice())?,
        routes: copy_all(alloc, plan.routes.as_slice())?,
        subs: copy_all(alloc, plan.subs.as_slice())?,
        flags: copy_all(alloc, plan.flags.as_slice())?,
        requests,
        statements,
        modules: copy_all(alloc, plan.modules.as_slice())?,
        outputs,
        inputs,
    })
}
