//! Every fault of a source, and the rows of its files of rules.

ghost use Rattle.std.specs.Prelude.{◌≡◌, ◌≤◌, map, All, IfOk};
ghost use Rattle.ssi_names.specs.Faults.{faults_by, identity_faults as faults_of_identities};
ghost use Rattle.ssi_names.specs.Scopes.{AreLimited, known, body_row, cond_row, outputs_row, request_row, statement_row};
ghost use Rattle.ssi_names.specs.Tables.{known_by, table_of};

use crate::fault::Fault;
use crate::identities::{declarations, names};
use crate::inputs::inputs;
use crate::limits::{FLAGS, POINTS, ROUTES, SIGNALS, SUBS, TRACKS};
use crate::modules::modules;
use crate::moves::moves;
use crate::outputs::outputs;
use crate::requests::requests;
use crate::scope::Scope;
use crate::source::SourceTree;
use crate::statements::statements;
use crate::tables::Tables;
use ssi_base::OutOfMemory;
use ssi_identities::{Body, Cond, RequestRow, Stmt};
use ssi_terms::IdentityTree;
use std::alloc::Global;

/// What is found of a source.
#[derive(Drop)]
pub struct Judged {
    /// Its faults, in written order.
    pub faults: Vec<Fault>,
    /// The rows of its requests.
    pub requests: Vec<RequestRow>,
    /// The condition of each entry of PFM.
    pub moves: Vec<Cond>,
    /// The rows of its statements.
    pub statements: Vec<Stmt>,
    /// The eight bits that each entry of OPT tells of.
    pub outputs: Vec<Vec<Option<Cond>>>,
    /// The body of each entry of IPT.
    pub inputs: Vec<Body>,
}

/// The faults of the files of identities, by tables of names.
#[tactic(auto, using(std::proofs::lemmas::List::append_assoc))]
fn identity_faults(
    alloc: Global,
    text: &[u8],
    tables: &Tables,
    tree: &IdentityTree,
) -> Result<Vec<Fault>, OutOfMemory>
    ensures { IfOk result (λ faults.
        faults.items ≡ faults_of_identities (known_by text.now tables.now) tree.now) }
{
    let mut faults = Vec::new(alloc);
    declarations(
        alloc,
        text,
        tables,
        POINTS,
        tree.points.as_slice(),
        &mut faults,
    )?;
    names(
        alloc,
        text,
        tables,
        SIGNALS,
        tree.signals.as_slice(),
        &mut faults,
    )?;
    names(
        alloc,
        text,
        tables,
        TRACKS,
        tree.tracks.as_slice(),
        &mut faults,
    )?;
    declarations(
        alloc,
        text,
        tables,
        ROUTES,
        tree.routes.as_slice(),
        &mut faults,
    )?;
    declarations(alloc, text, tables, SUBS, tree.subs.as_slice(), &mut faults)?;
    names(
        alloc,
        text,
        tables,
        FLAGS,
        tree.flags.as_slice(),
        &mut faults,
    )?;
    modules(alloc, text, tables, tree.modules.as_slice(), &mut faults)?;
    Ok(faults)
}

/// Every fault of a source, and the rows of its files of rules.
#[tactic(auto, using(std::proofs::lemmas::List::append_assoc))]
pub fn judge_source(
    alloc: Global,
    scope: &Scope<'_>,
    tree: &SourceTree,
) -> Result<Judged, OutOfMemory>
    requires limited { AreLimited scope.now.counts (table_of scope.now.tables.now) }
    requires short { All (λ entry. entry.0.len ≤ 16) tree.now.requests }
    ensures faults { IfOk result (λ judged. judged.faults.items ≡ faults_by (known scope.now) tree.now) }
    ensures requests { IfOk result (λ judged. judged.requests.items ≡ map (request_row scope.now) tree.now.requests) }
    ensures moves { IfOk result (λ judged. judged.moves.items ≡ map (λ rule. cond_row scope.now rule.2) tree.now.free) }
    ensures statements { IfOk result (λ judged. judged.statements.items ≡ map (statement_row scope.now) tree.now.statements) }
    ensures outputs { IfOk result (λ judged. map (λ row. row.items) judged.outputs.items ≡ map (outputs_row scope.now) tree.now.outputs) }
    ensures inputs { IfOk result (λ judged. judged.inputs.items ≡ map (λ entry. body_row scope.now entry.1) tree.now.inputs) }
{
    let mut faults = identity_faults(alloc, scope.text, scope.tables, &tree.identities)?;
    let requests = requests(alloc, scope, tree.requests.entries.as_slice(), &mut faults)?;
    let moves = moves(alloc, scope, tree.free.entries.as_slice(), &mut faults)?;
    let statements = statements(
        alloc,
        scope,
        tree.statements.entries.as_slice(),
        &mut faults,
    )?;
    let outputs = outputs(alloc, scope, tree.outputs.entries.as_slice(), &mut faults)?;
    let inputs = inputs(alloc, scope, tree.inputs.entries.as_slice(), &mut faults)?;
    Ok(Judged {
        faults,
        requests,
        moves,
        statements,
        outputs,
        inputs,
    })
}
