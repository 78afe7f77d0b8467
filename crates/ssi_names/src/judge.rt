//! Entries judged one after another, in written order.

ghost use Rattle.std.specs.Prelude.{◌≡◌, List, [], ◌∷◌, ◌++◌, map, All, IfOk, OnOk};
ghost use Rattle.ssi_names.specs.declared.fault.Fault.{Fault};
ghost use Rattle.ssi_names.specs.declared.scope.Scope.{Scope};
ghost use Rattle.ssi_names.specs.Occurrences.{in_order};
ghost use Rattle.ssi_names.specs.Scopes.{AreLimited};
ghost use Rattle.ssi_names.specs.Tables.{table_of};

use crate::fault::Fault;
use crate::scope::Scope;
use ssi_base::OutOfMemory;
use std::alloc::Global;

/// What judges the entries of a file, or the names of an entry, in written order.
pub trait Judge<X> {
    ghost faults_of: { Self → List X → X → List Fault };

    ghost is_after: { Self → List X → Type 0 };

    /// Notes the faults of an entry that stands after earlier ones.
    fn judge(
        &mut self,
        alloc: Global,
        earlier: &[X],
        entry: &X,
        faults: &mut Vec<Fault>,
    ) -> Result<(), OutOfMemory>
        requires { is_after self.old earlier.now }
        ensures faults { OnOk result
            (faults.new.items ≡ faults.old.items ++ faults_of self.old earlier.now entry.now) }
        ensures after { OnOk result (is_after self.new (earlier.now ++ entry.now ∷ [])) }
        ensures same { faults_of self.new ≡ faults_of self.old };
}

/// Notes the faults of all entries.
pub fn judge_all<X, J: Judge<X>>(
    alloc: Global,
    judge: &mut J,
    entries: &[X],
    faults: &mut Vec<Fault>,
) -> Result<(), OutOfMemory>
    requires { J.is_after judge.old [] }
    ensures { OnOk result
        (faults.new.items ≡ faults.old.items ++ in_order (J.faults_of judge.old) [] entries.now) }
{
    for (i, entry) in entries.iter().enumerate() {
        judge.judge(alloc, &entries[..i], entry, faults)?;
    }
    Ok(())
}

/// What judges the entries of a file of rules, in written order, and makes a row of each.
pub trait RuleJudge<X> {
    /// The row of an entry.
    type Row: Drop;

    /// What a row is seen as.
    ghost Value: { Type 0 };

    ghost seen_as: { Self.Row → Value };

    ghost faults_of: { Scope → List X → X → List Fault };

    ghost row_of: { Scope → X → Value };

    ghost is_fit: { X → Type 0 };

    ghost is_after: { Self → Scope → List X → Type 0 };

    /// The row of an entry that stands after earlier ones. Notes its faults.
    fn rule(
        &mut self,
        alloc: Global,
        scope: &Scope<'_>,
        earlier: &[X],
        entry: &X,
        faults: &mut Vec<Fault>,
    ) -> Result<Self::Row, OutOfMemory>
        requires limited { AreLimited scope.now.counts (table_of scope.now.tables.now) }
        requires fit { is_fit entry.now }
        requires after { is_after self.old scope.now earlier.now }
        ensures faults { OnOk result
            (faults.new.items ≡ faults.old.items ++ faults_of scope.now earlier.now entry.now) }
        ensures row { IfOk result (λ row. seen_as row ≡ row_of scope.now entry.now) }
        ensures after { OnOk result (is_after self.new scope.now (earlier.now ++ entry.now ∷ [])) };
}

/// The rows of all entries. Notes their faults.
pub fn judge_rules<X, J: RuleJudge<X>>(
    alloc: Global,
    scope: &Scope<'_>,
    judge: &mut J,
    entries: &[X],
    faults: &mut Vec<Fault>,
) -> Result<Vec<J::Row>, OutOfMemory>
    requires limited { AreLimited scope.now.counts (table_of scope.now.tables.now) }
    requires fit { All J.is_fit entries.now }
    requires after { J.is_after judge.old scope.now [] }
    ensures faults { OnOk result
        (faults.new.items ≡ faults.old.items ++ in_order (J.faults_of scope.now) [] entries.now) }
    ensures rows { IfOk result (λ rows. map J.seen_as rows.items ≡ map (J.row_of scope.now) entries.now) }
{
    let mut rows = Vec::with_capacity(alloc, entries.len())?;
    for (i, entry) in entries.iter().enumerate() {
        rows.push(judge.rule(alloc, scope, &entries[..i], entry, faults)?)?;
    }
    Ok(rows)
}
