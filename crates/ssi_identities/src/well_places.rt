//! The places of conditions and bodies in a data set.

ghost use Rattle.std.specs.Prelude.{◌≡◌};
ghost use Rattle.ssi_identities.specs.DataSets.{counts_of};
ghost use Rattle.ssi_identities.specs.Deciding.{body_scope_of, cond_scope_of};
ghost use Rattle.ssi_identities.specs.Facts.{IsWithinLimits};
ghost use Rattle.ssi_identities.specs.Wells.{scope_of_conds, scope_of_decisions, scope_of_inputs, scope_of_moves};

use crate::data_set::DataSet;
use crate::fact::fact_count;
use crate::limits::BITS;
use crate::place::{BodyPlace, CondPlace};

/// Where the conditions of points stand.
pub fn move_place(plan: &DataSet) -> CondPlace<'_>
    requires { IsWithinLimits (counts_of plan.now) }
    ensures { cond_scope_of result ≡ scope_of_moves plan.now }
{
    CondPlace {
        facts: fact_count(&plan.counts()),
        bits: 0,
        points: &[],
    }
}

/// Where other conditions stand, where a report has so many bits.
pub fn cond_place(plan: &DataSet, bits: u8) -> CondPlace<'_>
    requires { IsWithinLimits (counts_of plan.now) }
    ensures { cond_scope_of result ≡ scope_of_conds plan.now bits }
{
    CondPlace {
        facts: fact_count(&plan.counts()),
        bits,
        points: plan.points.as_slice(),
    }
}

/// Where the bodies of requests and the commands of statements stand.
pub fn decision_place(plan: &DataSet) -> BodyPlace<'_>
    requires { IsWithinLimits (counts_of plan.now) }
    ensures { body_scope_of result ≡ scope_of_decisions plan.now }
{
    BodyPlace {
        guards: cond_place(plan, 0),
        counts: plan.counts(),
        is_input: false,
    }
}

/// Where the inputs of modules stand.
pub fn input_place(plan: &DataSet) -> BodyPlace<'_>
    requires { IsWithinLimits (counts_of plan.now) }
    ensures { body_scope_of result ≡ scope_of_inputs plan.now }
{
    BodyPlace {
        guards: cond_place(plan, BITS),
        counts: plan.counts(),
        is_input: true,
    }
}
