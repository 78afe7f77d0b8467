//! The rules of a data set, row by row: the conditions and bodies that have code.

ghost use Rattle.std.specs.Prelude.{◌≡◌, ℕ, List, ◌++◌, map, All, IfOk, IfSome, OnOk};
ghost use Rattle.std.specs.List.{flat_map};
ghost use Rattle.ssi_identities.specs.Allowed.{IsWellBody};
ghost use Rattle.ssi_identities.specs.Wells.{AreWellOutputs, HasWellMoves, IsWell, IsWellStatement, scope_of_conds, scope_of_decisions, scope_of_inputs, scope_of_moves};
ghost use Rattle.ssi_image.specs.Packed as spec;
ghost use Rattle.ssi_image.specs.Packed.{pieces_of as pieces_of_plan};
ghost use Rattle.ssi_compiler.specs.Rows.{IsWellInSome};

use crate::pieces::Pieces;
use ssi_base::OutOfMemory;
use ssi_identities::{DataSet, ModuleRow, PointsRow, RequestRow, Stmt};
use std::alloc::Global;

/// Rules of one kind: rows of a data set, each with its pieces of code.
trait Rules {
    /// What has such rules.
    type Row;

    /// The code of each of them, in the order of an image.
    ghost pieces_of: { Self.Row → List (List ℕ) };

    /// Each of them is well, so its code is short.
    ghost is_well: { Self.Row → Type 0 };

    /// Adds the pieces of a row.
    fn add_row(pieces: &mut Pieces, row: &Self::Row) -> Result<(), OutOfMemory>
        requires { is_well row.now }
        ensures { OnOk result (pieces.new ≡ pieces.old ++ pieces_of row.now) };
}

/// Adds the pieces of all rows.
fn add_rows<R: Rules>(pieces: &mut Pieces, rows: &[R::Row]) -> Result<(), OutOfMemory>
    requires { All R.is_well rows.now }
    ensures { OnOk result (pieces.new ≡ pieces.old ++ flat_map R.pieces_of rows.now) }
{
    for row in rows {
        R::add_row(pieces, row)?;
    }
    Ok(())
}

/// When points are free to move.
struct Moves;

impl Rules for Moves {
    type Row = PointsRow;

    ghost pieces_of = { spec.move_pieces };

    ghost is_well = { IsWellInSome (λ plan. HasWellMoves (scope_of_moves plan)) };

    fn add_row(pieces: &mut Pieces, row: &PointsRow) -> Result<(), OutOfMemory> {
        pieces.add_if(&row.free_normal)?;
        pieces.add_if(&row.free_reverse)
    }
}

/// What requests do.
struct Requests;

impl Rules for Requests {
    type Row = RequestRow;

    ghost pieces_of = { spec.request_pieces };

    ghost is_well = { IsWellInSome (λ plan row. IsWellBody (scope_of_decisions plan) row.body) };

    fn add_row(pieces: &mut Pieces, row: &RequestRow) -> Result<(), OutOfMemory> {
        pieces.add(&row.body)
    }
}

/// What statements do, and when.
struct Statements;

impl Rules for Statements {
    type Row = Stmt;

    ghost pieces_of = { spec.statement_pieces };

    ghost is_well = { IsWellInSome (λ plan. IsWellStatement (scope_of_decisions plan)) };

    fn add_row(pieces: &mut Pieces, row: &Stmt) -> Result<(), OutOfMemory> {
        pieces.add(&row.guard)?;
        pieces.add(&row.commands)
    }
}

/// When the bits are 1 that are sent to modules.
struct Outputs;

impl Rules for Outputs {
    type Row = ModuleRow;

    ghost pieces_of = { spec.output_pieces };

    ghost is_well = { IsWellInSome (λ plan row. AreWellOutputs (scope_of_conds plan 0) row.outputs) };

    fn add_row(pieces: &mut Pieces, row: &ModuleRow) -> Result<(), OutOfMemory> {
        for output in &row.outputs {
            pieces.add_if(output)?;
        }
        Ok(())
    }
}

/// What reports of modules do.
struct Inputs;

impl Rules for Inputs {
    type Row = ModuleRow;

    ghost pieces_of = { spec.input_pieces };

    ghost is_well = { IsWellInSome (λ plan row. IfSome row.input (IsWellBody (scope_of_inputs plan))) };

    fn add_row(pieces: &mut Pieces, row: &ModuleRow) -> Result<(), OutOfMemory> {
        pieces.add_if(&row.input)
    }
}

/// The code of each condition and body of a data set.
pub fn pieces(alloc: Global, plan: &DataSet) -> Result<Vec<Vec<u8>>, OutOfMemory>
    requires { IsWell plan.now }
    ensures { IfOk result (λ code. map (λ piece. piece.items) code.items ≡ pieces_of_plan plan.now) }
{
    let mut pieces = Pieces::new(alloc);
    add_rows::<Moves>(&mut pieces, plan.points.as_slice())?;
    add_rows::<Requests>(&mut pieces, plan.requests.as_slice())?;
    add_rows::<Statements>(&mut pieces, plan.statements.as_slice())?;
    add_rows::<Outputs>(&mut pieces, plan.modules.as_slice())?;
    add_rows::<Inputs>(&mut pieces, plan.modules.as_slice())?;
    Ok(pieces.into_vec())
}
