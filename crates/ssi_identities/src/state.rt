//! The state that an interlocking starts in.

ghost use Rattle.std.specs.Prelude.{◌≡◌, ℕ, ◌<◌, IfOk};
ghost use Rattle.ssi_identities.specs.declared.fact.Counts.{Counts};
ghost use Rattle.ssi_identities.specs.declared.fact.FactKind.{FactKind};
ghost use Rattle.ssi_identities.specs.Facts.{IsWithinLimits, count_of, fact_number_of};
ghost use Rattle.ssi_identities.specs.States.{IsStateOf, is_true_at_start, start_of, truth_of};

use crate::fact::{Counts, fact_count};
use ssi_base::OutOfMemory;
use std::alloc::Global;

/// The state at the start: every track occupied, and all else false.
pub fn start(alloc: Global, counts: &Counts) -> Result<Vec<bool>, OutOfMemory>
    requires { IsWithinLimits counts.now }
    ensures { IfOk result (λ state. state.items ≡ (start_of counts.now).facts) }
{
    let all = usize::from(fact_count(counts));
    let first_track = usize::from(3 * counts.points + counts.signals);
    let mut state = Vec::with_capacity(alloc, all)?;
    state.resize(first_track, false)?;
    state.resize(first_track + usize::from(counts.tracks), true)?;
    state.resize(all, false)?;
    Ok(state)
}

/// The state at the start is one of the layout, and a fact's value goes by its kind.
pub fn laws_of_the_start()
    ensures state { (counts : Counts) → IsStateOf counts (start_of counts) }
    ensures value { (counts : Counts) (kind : FactKind) (index : ℕ) → index < count_of counts kind
        → truth_of (start_of counts) (fact_number_of counts kind index) ≡ is_true_at_start kind }
{}
