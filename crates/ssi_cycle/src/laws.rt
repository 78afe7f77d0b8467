//! What deeds are to blocks, moments to events, and slots to statements.

ghost use Rattle.std.specs.Prelude.{◌≡◌, ◌≢◌, ℕ, ◌*◌, ◌≤◌, All, Contains, List};
ghost use Rattle.std.specs.List.{flat_map, range_with_len};
ghost use Rattle.ssi_identities.specs.DataSets.{ModulePlan, Plan, StmtPlan, counts_of};
ghost use Rattle.ssi_identities.specs.States.{IsStateOf, State, truth_of};
ghost use Rattle.ssi_cycle.specs.Blocks.{IsDeedOf};
ghost use Rattle.ssi_cycle.specs.Deeds.{Deed, after_deed};
ghost use Rattle.ssi_cycle.specs.Exchanges.{Arrival};
ghost use Rattle.ssi_cycle.specs.Moments.{IsChain, after_changes, changes_of_deed, changes_of_events, moments_of};
ghost use Rattle.ssi_cycle.specs.Restrictions.{restricted, restriction_of_module};
ghost use Rattle.ssi_cycle.specs.Statements.{share_of, statements_in};
ghost use Rattle.ssi_cycle.specs.Worlds.{Event, World, after, after_events, deeds_of};

/// Whatever acts in a minor cycle is a block of the data set, with a byte, and only its modules are restricted. A deed leads from a state of the layout to one, by
/// changes that form a chain, and a restriction leaves each fact that it doesn't name.
pub fn laws_of_deeds()
    ensures each { (plan : Plan) (world : World) (arrived : Arrival) → All (IsDeedOf plan) (deeds_of plan world arrived) }
    ensures state { (plan : Plan) (state : State) (deed : Deed)
        → IsStateOf (counts_of plan) state → IsStateOf (counts_of plan) (after_deed plan state deed) }
    ensures chain { (plan : Plan) (state : State) (deed : Deed) → IsChain state (changes_of_deed plan state deed) }
    ensures last { (plan : Plan) (state : State) (deed : Deed)
        → after_deed plan state deed ≡ after_changes state (changes_of_deed plan state deed) }
    ensures others { (plan : Plan) (row : ModulePlan) (state : State) (fact : ℕ)
        → All (λ setting. fact ≢ setting.fact) (restriction_of_module plan row)
        → truth_of (restricted plan row state) fact ≡ truth_of state fact }
{}

/// The changes of events begin in the state before, each in the state that the one before it has left, and the last of them leaves the state after. So
/// the state after events from the start is one of their moments, and between two moments no state changes. All moments are states of the layout.
pub fn laws_of_moments()
    ensures chain { (plan : Plan) (world : World) (events : List Event)
        → IsChain world.state (changes_of_events plan world events) }
    ensures last { (plan : Plan) (world : World) (events : List Event)
        → (after_events plan world events).state ≡ after_changes world.state (changes_of_events plan world events) }
    ensures moment { (plan : Plan) (events : List Event) → Contains (moments_of plan events) (after plan events).state }
    ensures states { (plan : Plan) (events : List Event) → All (IsStateOf (counts_of plan)) (moments_of plan events) }
{}

/// The share of a slot is the least of which 64 slots have enough for all statements, and all slots together have each statement once, in written order.
pub fn laws_of_slots()
    ensures enough { (count : ℕ) → count ≤ 64 * share_of count }
    ensures least { (count share : ℕ) → count ≤ 64 * share → share_of count ≤ share }
    ensures each_once { (statements : List StmtPlan)
        → flat_map (statements_in statements) (range_with_len 0 64) ≡ statements }
{}
