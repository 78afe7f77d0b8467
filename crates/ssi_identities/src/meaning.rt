//! What conditions and bodies mean: the laws that bodies go by, and examples worked by hand.

ghost use Rattle.std.specs.Prelude.{◌≡◌, ℕ, ◌+◌, ◌<◌, ◌≤◌, ◌^◌, Bool, true, false, if◌then◌else◌, List, [], ◌∷◌, ◌++◌, ◌*◌, ◌&&◌, ◌||◌, Some, None, length, slice_index_or};
ghost use Rattle.ssi_identities.specs.declared.rule.Cmd.{Cmd};
ghost use Rattle.ssi_identities.specs.declared.rule.CondItem.{CondItem};
ghost use Rattle.ssi_identities.specs.declared.rule.CondItem.TheVariants.{Lit, Bit, Free, Any};
ghost use Rattle.ssi_identities.specs.declared.rule.Cond.{Cond};
ghost use Rattle.ssi_identities.specs.declared.rule.BodyItem.{BodyItem};
ghost use Rattle.ssi_identities.specs.declared.rule.BodyItem.TheVariants.{Do, If};
ghost use Rattle.ssi_identities.specs.declared.rule.Body.{Body};
ghost use Rattle.ssi_identities.specs.DataSets.{Plan};
ghost use Rattle.ssi_identities.specs.States.{State, truth_of};
ghost use Rattle.ssi_identities.specs.Values.{Scene, bit_of, byte_of, cond_of, holds_in, is_as_wanted, is_free, item_holds, may_move, move_condition_of, move_scene, scene_of, value_of};
ghost use Rattle.ssi_identities.specs.Steps.{Valuation, act_of, after_steps, body_of, command_count_of, effect_of, item_command_count_of, item_effect_of, item_steps_from, obey, step_of, steps_from, steps_of};
ghost use Rattle.ssi_identities.specs.WorkedExamples.{two_flags, one_is_set, nested_groups, no_alternative, bit_is, points_and_flag, points_are, free_to, flags, l1_is, l1_becomes, l2_becomes, step, l1_set_and_l2_not, no_fact_is_false, looks_at_what_it_set, undoes_its_guard, copies_l1, sets_then_resets, sets_no_fact, goes_on_after_a_choice};

/// A condition holds where all of its items do, and a group where one of its alternatives does. Points are
/// free to a lie where they are controlled to it, or where their own condition for the lie holds. That
/// condition does not ask in turn which points are free.
pub fn laws_of_values()
    ensures no_item { (scene : Scene) → holds_in scene (cond_of []) ≡ true }
    ensures items { (scene : Scene) (item : CondItem) (items : List CondItem)
        → holds_in scene (cond_of (item ∷ items)) ≡ (item_holds scene item && holds_in scene (cond_of items)) }
    ensures fact { (scene : Scene) (fact : ℕ) (wanted : Bool)
        → item_holds scene (Lit fact wanted) ≡ is_as_wanted (truth_of scene.state fact) wanted }
    ensures bit { (scene : Scene) (bit : ℕ) (wanted : Bool)
        → item_holds scene (Bit bit wanted) ≡ is_as_wanted (scene.bits bit) wanted }
    ensures free { (scene : Scene) (points : ℕ) (reverse : Bool)
        → item_holds scene (Free points reverse) ≡ scene.free points reverse }
    ensures no_alternative { (scene : Scene) → item_holds scene (Any []) ≡ false }
    ensures alternatives { (scene : Scene) (cond : Cond) (conds : List Cond)
        → item_holds scene (Any (cond ∷ conds)) ≡ (holds_in scene cond || item_holds scene (Any conds)) }
    ensures bit_of_the_report { (plan : Plan) (state : State) (report bit : ℕ) (wanted : Bool)
        → item_holds (scene_of plan state report) (Bit bit wanted) ≡ is_as_wanted (bit_of report bit) wanted }
    ensures controlled_or_free { (plan : Plan) (state : State) (report points : ℕ) (reverse : Bool)
        → item_holds (scene_of plan state report) (Free points reverse)
        ≡ (is_as_wanted (truth_of state (3 * points)) reverse
        || may_move state report (move_condition_of plan points reverse)) }
    ensures no_condition { (state : State) (report : ℕ) → may_move state report None ≡ false }
    ensures own_condition { (state : State) (report : ℕ) (cond : Cond)
        → may_move state report (Some cond) ≡ holds_in (move_scene state report) cond }
    ensures no_points_in_turn { (state : State) (report points : ℕ) (reverse : Bool)
        → item_holds (move_scene state report) (Free points reverse) ≡ false }
{}

/// The byte of eight bits has these bits, the lowest first; so any eight truth values are the bits of a
/// report.
pub fn laws_of_bits()
    ensures bit { (bits : List Bool) (i : ℕ) → length bits ≤ 8
        → bit_of (byte_of bits) i ≡ slice_index_or bits i false }
    ensures byte { (bits : List Bool) → byte_of bits < 2 ^ length bits }
{}

/// The items of a body act one after another: a command gives its fact the value, and a choice acts as
/// the branch that its guard takes in the state just before.
pub fn laws_of_effects()
    ensures no_item { (plan : Plan) (state : State) (report : ℕ)
        → effect_of plan (body_of []) state report ≡ state }
    ensures items { (plan : Plan) (item : BodyItem) (items : List BodyItem) (state : State) (report : ℕ)
        → effect_of plan (body_of (item ∷ items)) state report
        ≡ effect_of plan (body_of items) (item_effect_of plan item state report) report }
    ensures command { (plan : Plan) (command : Cmd) (state : State) (report : ℕ)
        → item_effect_of plan (Do command) state report ≡ obey command state }
    ensures choice { (plan : Plan) (guard : Cond) (body : Body) (state : State) (report : ℕ)
        → item_effect_of plan (If guard body None) state report
        ≡ (if value_of plan guard state report then effect_of plan body state report else state) }
    ensures choice_with_else { (plan : Plan) (guard : Cond) (body other : Body) (state : State) (report : ℕ)
        → item_effect_of plan (If guard body (Some other)) state report
        ≡ (if value_of plan guard state report then effect_of plan body state report
        else effect_of plan other state report) }
{}

/// The commands of a body are those of its items, in both branches of a choice, whatever guards say.
pub fn laws_of_command_counts()
    ensures no_item { command_count_of (body_of []) ≡ 0 }
    ensures items { (item : BodyItem) (items : List BodyItem)
        → command_count_of (body_of (item ∷ items))
        ≡ item_command_count_of item + command_count_of (body_of items) }
    ensures command { (command : Cmd) → item_command_count_of (Do command) ≡ 1 }
    ensures choice { (guard : Cond) (body : Body)
        → item_command_count_of (If guard body None) ≡ command_count_of body }
    ensures choice_with_else { (guard : Cond) (body other : Body)
        → item_command_count_of (If guard body (Some other))
        ≡ command_count_of body + command_count_of other }
    ensures any_guards { (holds : Valuation) (body : Body)
        → (act_of holds body).commands ≡ command_count_of body }
{}

/// The steps of a body are those of its items one after another. An item's commands are numbered after
/// those of the items before it, and the commands of an else after those of its branch, whichever is
/// taken.
pub fn laws_of_steps()
    ensures no_item { (plan : Plan) (first : ℕ) (state : State) (report : ℕ)
        → steps_from plan (body_of []) first state report ≡ [] }
    ensures items { (plan : Plan) (item : BodyItem) (items : List BodyItem)
        (first : ℕ) (state : State) (report : ℕ)
        → let steps = item_steps_from plan item first state report in
        let next = first + item_command_count_of item in
        steps_from plan (body_of (item ∷ items)) first state report
        ≡ steps ++ steps_from plan (body_of items) next (after_steps state steps) report }
    ensures command { (plan : Plan) (command : Cmd) (first : ℕ) (state : State) (report : ℕ)
        → item_steps_from plan (Do command) first state report ≡ step_of command first state ∷ [] }
    ensures choice { (plan : Plan) (guard : Cond) (body : Body) (first : ℕ) (state : State) (report : ℕ)
        → item_steps_from plan (If guard body None) first state report
        ≡ (if value_of plan guard state report then steps_from plan body first state report else []) }
    ensures choice_with_else { (plan : Plan) (guard : Cond) (body other : Body)
        (first : ℕ) (state : State) (report : ℕ)
        → let second = first + command_count_of body in
        item_steps_from plan (If guard body (Some other)) first state report
        ≡ (if value_of plan guard state report then steps_from plan body first state report
        else steps_from plan other second state report) }
{}

/// A condition holds where each of its items does.
pub fn worked_conditions()
    ensures set { (report : ℕ) → value_of two_flags (l1_is true) (flags true false) report ≡ true }
    ensures unset { (report : ℕ) → value_of two_flags (l1_is false) (flags true false) report ≡ false }
    ensures all { (report : ℕ)
        → value_of two_flags l1_set_and_l2_not (flags true false) report ≡ true }
    ensures not_all { (report : ℕ)
        → value_of two_flags l1_set_and_l2_not (flags true true) report ≡ false }
    ensures past_the_end { (report : ℕ)
        → value_of two_flags no_fact_is_false (flags true true) report ≡ true }
    ensures bit_is_one { (l1 l2 : Bool)
        → value_of two_flags (bit_is 2 true) (flags l1 l2) 0b0000_0100 ≡ true }
    ensures bit_is_not_one { (l1 l2 : Bool)
        → value_of two_flags (bit_is 2 true) (flags l1 l2) 0b1111_1011 ≡ false }
    ensures bit_is_zero { (l1 l2 : Bool)
        → value_of two_flags (bit_is 7 false) (flags l1 l2) 0b0111_1111 ≡ true }
{}

/// A group holds where one of its alternatives does, and groups may stand in groups.
pub fn worked_groups()
    ensures first { (l2 : Bool) (report : ℕ) → value_of two_flags one_is_set (flags true l2) report ≡ true }
    ensures second { (l1 : Bool) (report : ℕ) → value_of two_flags one_is_set (flags l1 true) report ≡ true }
    ensures neither { (report : ℕ) → value_of two_flags one_is_set (flags false false) report ≡ false }
    ensures no_alternative { (l1 l2 : Bool) (report : ℕ)
        → value_of two_flags no_alternative (flags l1 l2) report ≡ false }
    ensures outer { (report : ℕ) → value_of two_flags nested_groups (flags true true) report ≡ true }
    ensures outer_fails { (report : ℕ) → value_of two_flags nested_groups (flags true false) report ≡ false }
    ensures inner_first { (report : ℕ)
        → value_of two_flags nested_groups (flags false false) report ≡ true }
    ensures inner_second { value_of two_flags nested_groups (flags false true) 0b1111_1110 ≡ true }
    ensures inner_fails { value_of two_flags nested_groups (flags false true) 0b0000_0001 ≡ false }
{}

/// Points are free to a lie where they are controlled to it already or where their own condition for it
/// holds.
pub fn worked_points()
    ensures controlled_normal { (p2 l1 : Bool) (report : ℕ)
        → value_of points_and_flag (free_to 0 false) (points_are false p2 l1) report ≡ true }
    ensures free_to_normal { (p2 : Bool) (report : ℕ)
        → value_of points_and_flag (free_to 0 false) (points_are true p2 true) report ≡ true }
    ensures held_reverse { (p2 : Bool) (report : ℕ)
        → value_of points_and_flag (free_to 0 false) (points_are true p2 false) report ≡ false }
    ensures controlled_reverse { (p2 l1 : Bool) (report : ℕ)
        → value_of points_and_flag (free_to 0 true) (points_are true p2 l1) report ≡ true }
    ensures free_to_reverse { (p2 : Bool) (report : ℕ)
        → value_of points_and_flag (free_to 0 true) (points_are false p2 false) report ≡ true }
    ensures held_normal { (p2 : Bool) (report : ℕ)
        → value_of points_and_flag (free_to 0 true) (points_are false p2 true) report ≡ false }
    ensures other_points { (p1 : Bool) (report : ℕ)
        → value_of points_and_flag (free_to 1 true) (points_are p1 false true) report ≡ true }
    ensures no_condition { (p1 l1 : Bool) (report : ℕ)
        → value_of points_and_flag (free_to 1 false) (points_are p1 true l1) report ≡ false }
{}

/// The bits of a report's byte, the lowest first. There are eight.
pub fn worked_bits()
    ensures lowest { bit_of 0b1000_0101 0 ≡ true }
    ensures second { bit_of 0b1000_0101 1 ≡ false }
    ensures third { bit_of 0b1000_0101 2 ≡ true }
    ensures highest { bit_of 0b1000_0101 7 ≡ true }
    ensures no_ninth { (report : ℕ) → bit_of report 8 ≡ false }
{}

/// A later item sees what an earlier one did, and a guard is valued once, before its branch.
pub fn worked_bodies()
    ensures later_item_sees { (report : ℕ)
        → effect_of two_flags looks_at_what_it_set (flags false false) report ≡ flags true true }
    ensures false_guard { (l2 : Bool) (report : ℕ)
        → effect_of two_flags looks_at_what_it_set (flags true l2) report ≡ flags true l2 }
    ensures guard_once { (report : ℕ)
        → effect_of two_flags undoes_its_guard (flags false false) report ≡ flags true true }
    ensures then_taken { (l2 : Bool) (report : ℕ)
        → effect_of two_flags copies_l1 (flags true l2) report ≡ flags true true }
    ensures else_taken { (l2 : Bool) (report : ℕ)
        → effect_of two_flags copies_l1 (flags false l2) report ≡ flags false false }
    ensures last_wins { (l1 l2 : Bool) (report : ℕ)
        → effect_of two_flags sets_then_resets (flags l1 l2) report ≡ flags false l2 }
    ensures past_the_end { (l1 l2 : Bool) (report : ℕ)
        → effect_of two_flags sets_no_fact (flags l1 l2) report ≡ flags l1 l2 }
{}

/// Each step has the number of its command and the states before and after it. Commands that are passed
/// over have numbers too.
pub fn worked_steps()
    ensures count_within { command_count_of looks_at_what_it_set ≡ 3 }
    ensures count_on { command_count_of goes_on_after_a_choice ≡ 4 }
    ensures inner_branch { (report : ℕ)
        → steps_of two_flags looks_at_what_it_set (flags false false) report
        ≡ step (flags false false) 0 (l1_becomes true) (flags true false)
        ∷ step (flags true false) 1 (l2_becomes true) (flags true true) ∷ [] }
    ensures no_branch { (l2 : Bool) (report : ℕ)
        → steps_of two_flags looks_at_what_it_set (flags true l2) report ≡ [] }
    ensures then_taken { (report : ℕ)
        → steps_of two_flags goes_on_after_a_choice (flags true false) report
        ≡ step (flags true false) 0 (l2_becomes true) (flags true true)
        ∷ step (flags true true) 1 (l2_becomes false) (flags true false)
        ∷ step (flags true false) 3 (l2_becomes true) (flags true true) ∷ [] }
    ensures else_taken { (report : ℕ)
        → steps_of two_flags goes_on_after_a_choice (flags false false) report
        ≡ step (flags false false) 2 (l1_becomes true) (flags true false)
        ∷ step (flags true false) 3 (l2_becomes true) (flags true true) ∷ [] }
{}
