//! Examples of the definitions, worked by hand.

ghost use Rattle.std.specs.Prelude.{◌≡◌, ℕ, Bool, true, false, [], ◌∷◌, ◌++◌, map, replicate, Some, None};
ghost use Rattle.std.specs.List.{flat_map, range_with_len};
ghost use Rattle.ssi_identities.specs.States.{State};
ghost use Rattle.ssi_identities.specs.Allowed.{body_of_statement};
ghost use Rattle.ssi_cycle.specs.Deeds.Deed.{Acts, Restricts};
ghost use Rattle.ssi_cycle.specs.Moments.{moments_of};
ghost use Rattle.ssi_identities.specs.Values.{byte_of};
ghost use Rattle.ssi_cycle.specs.Outputs.{output_byte, output_in};
ghost use Rattle.ssi_cycle.specs.Restrictions.{restricted};
ghost use Rattle.ssi_cycle.specs.Statements.{share_of, statements_in};
ghost use Rattle.ssi_cycle.specs.Worked.{statement, statements, module_of_p1, module_of_p2, module_of_s1, module_of_tracks, lineside, lineside_is, module_of_t1, reads_t1, notes_t1, gives_t1, one_track, one_track_is, in_slot};
ghost use Rattle.ssi_cycle.specs.Worlds.{after, after_event, deeds_of, start_of, taken_in};
ghost use Rattle.ssi_cycle.specs.Worlds.Event.{Put, Minor};

/// Each slot has the least number of statements of which 64 slots have enough, as far as there are so many: each statement stands in one slot.
pub fn worked_slots()
    ensures shares { map share_of (0 ∷ 1 ∷ 64 ∷ 65 ∷ 4096 ∷ []) ≡ 0 ∷ 1 ∷ 1 ∷ 2 ∷ 64 ∷ [] }
    ensures first { statements_in (statements 65) 0 ≡ statement 0 ∷ statement 1 ∷ [] }
    ensures full { statements_in (statements 65) 31 ≡ statement 62 ∷ statement 63 ∷ [] }
    ensures last { statements_in (statements 65) 32 ≡ statement 64 ∷ [] }
    ensures empty { statements_in (statements 65) 33 ≡ [] }
    ensures each_once { flat_map (statements_in (statements 65)) (range_with_len 0 64) ≡ statements 65 }
{}

/// The first bit of a list is the lowest of the byte, and a bit without a condition is 0.
pub fn worked_bytes()
    ensures none { byte_of [] ≡ 0 }
    ensures lowest { byte_of (true ∷ false ∷ []) ≡ 1 }
    ensures second { byte_of (false ∷ true ∷ []) ≡ 2 }
    ensures eight { byte_of (true ∷ false ∷ true ∷ false ∷ false ∷ false ∷ false ∷ true ∷ [])
        ≡ 0b1000_0101 }
    ensures all { byte_of (replicate 8 true) ≡ 255 }
    ensures both { (l1 : Bool)
        → output_byte one_track (one_track_is false l1 true) module_of_t1 ≡ 0b0000_0101 }
    ensures bit_0 { (l1 : Bool)
        → output_byte one_track (one_track_is true l1 true) module_of_t1 ≡ 0b0000_0001 }
    ensures bit_2 { (l1 : Bool)
        → output_byte one_track (one_track_is false l1 false) module_of_t1 ≡ 0b0000_0100 }
    ensures neither { (l1 : Bool)
        → output_byte one_track (one_track_is true l1 false) module_of_t1 ≡ 0 }
    ensures telegram { (l1 : Bool)
        → output_in one_track 5 (one_track_is false l1 true) ≡ Some (133 ∷ 5 ∷ 250 ∷ 122 ∷ []) }
    ensures no_module { (state : State) → output_in one_track 6 state ≡ None }
{}

/// Points become undetected in the lie in which they were detected, a lamp becomes unproved, and tracks become occupied; an empty pin
/// restricts nothing, and what is wired to other modules stays.
pub fn worked_restrictions()
    ensures points { restricted lineside module_of_p1 (lineside_is true true true false false)
        ≡ lineside_is false true true false false }
    ensures other_points { restricted lineside module_of_p2 (lineside_is true true true false false)
        ≡ lineside_is true false true false false }
    ensures signal { restricted lineside module_of_s1 (lineside_is true true true false false)
        ≡ lineside_is true true false false false }
    ensures tracks { restricted lineside module_of_tracks (lineside_is true true true false false)
        ≡ lineside_is true true true true true }
    ensures again { restricted lineside module_of_tracks (lineside_is true true true true true)
        ≡ lineside_is true true true true true }
{}

/// What acts in minor cycles: what arrives in the slot, then its statements, then the request that is taken. A report's number is a byte.
pub fn worked_deeds()
    ensures report { (state : State)
        → deeds_of one_track (in_slot 5 state []) (Some (69 ∷ 1 ∷ 254 ∷ 186 ∷ [])) ≡ Acts reads_t1 1 ∷ [] }
    ensures no_byte { (state : State)
        → deeds_of one_track (in_slot 5 state []) (Some (69 ∷ 300 ∷ 0 ∷ 186 ∷ [])) ≡ Restricts module_of_t1 ∷ [] }
    ensures silent { (state : State)
        → deeds_of one_track (in_slot 5 state (0 ∷ [])) None ≡ Restricts module_of_t1 ∷ Acts gives_t1 0 ∷ [] }
    ensures in_turn { (state : State) → deeds_of one_track (in_slot 0 state (0 ∷ 0 ∷ [])) None
        ≡ Acts (body_of_statement notes_t1) 0 ∷ Acts gives_t1 0 ∷ [] }
    ensures no_module { (state : State)
        → deeds_of one_track (in_slot 6 state []) (Some (69 ∷ 1 ∷ 254 ∷ 186 ∷ [])) ≡ [] }
    ensures no_input { (state : State)
        → deeds_of lineside (in_slot 1 state []) (Some (65 ∷ 1 ∷ 254 ∷ 190 ∷ [])) ≡ [] }
    ensures oldest { (slot : ℕ) (state : State)
        → taken_in one_track (in_slot slot state (0 ∷ 1 ∷ [])) ≡ Some (0, 0) }
    ensures none_waits { (slot : ℕ) (state : State) → taken_in one_track (in_slot slot state []) ≡ None }
{}

/// What events make of worlds of the layout of one track, whose module is exchanged with in slot 5, and whose statement acts in slot 0.
pub fn worked_cycle()
    ensures start { start_of one_track ≡ in_slot 0 (one_track_is true false false) [] }

    // A right report, with bit 0 high and then with that bit alone low.
    ensures clear { (l1 l2 : Bool)
        → after_event one_track (in_slot 5 (one_track_is true l1 l2) [])
        (Minor (Some (69 ∷ 1 ∷ 254 ∷ 186 ∷ [])))
        ≡ in_slot 6 (one_track_is false l1 l2) [] }
    ensures occupied { (l1 l2 : Bool)
        → after_event one_track (in_slot 5 (one_track_is false l1 l2) [])
        (Minor (Some (69 ∷ 254 ∷ 1 ∷ 186 ∷ [])))
        ≡ in_slot 6 (one_track_is true l1 l2) [] }

    // The first of them with its third byte damaged, a report of another address, and nothing.
    ensures damaged { (l1 l2 : Bool)
        → after_event one_track (in_slot 5 (one_track_is false l1 l2) [])
        (Minor (Some (69 ∷ 1 ∷ 255 ∷ 186 ∷ [])))
        ≡ in_slot 6 (one_track_is true l1 l2) [] }
    ensures foreign { (l1 l2 : Bool)
        → after_event one_track (in_slot 5 (one_track_is false l1 l2) [])
        (Minor (Some (70 ∷ 1 ∷ 254 ∷ 185 ∷ [])))
        ≡ in_slot 6 (one_track_is true l1 l2) [] }
    ensures silent { (l1 l2 : Bool)
        → after_event one_track (in_slot 5 (one_track_is false l1 l2) []) (Minor None)
        ≡ in_slot 6 (one_track_is true l1 l2) [] }

    // Slot 6 has no module: neither a report nor its absence does anything there.
    ensures other_slot { (t1 l1 l2 : Bool)
        → after_event one_track (in_slot 6 (one_track_is t1 l1 l2) [])
        (Minor (Some (69 ∷ 1 ∷ 254 ∷ 186 ∷ [])))
        ≡ in_slot 7 (one_track_is t1 l1 l2) [] }
    ensures other_slot_silent { (t1 l1 l2 : Bool)
        → after_event one_track (in_slot 6 (one_track_is t1 l1 l2) []) (Minor None)
        ≡ in_slot 7 (one_track_is t1 l1 l2) [] }
    ensures last_slot { (t1 l1 l2 : Bool)
        → after_event one_track (in_slot 63 (one_track_is t1 l1 l2) []) (Minor None)
        ≡ in_slot 0 (one_track_is t1 l1 l2) [] }

    // The statement sees the track, in its own slot alone.
    ensures statement { (l2 : Bool)
        → after_event one_track (in_slot 0 (one_track_is false false l2) []) (Minor None)
        ≡ in_slot 1 (one_track_is false true l2) [] }
    ensures guard_fails { (l2 : Bool)
        → after_event one_track (in_slot 0 (one_track_is true false l2) []) (Minor None)
        ≡ in_slot 1 (one_track_is true false l2) [] }
    ensures no_turn { (l2 : Bool)
        → after_event one_track (in_slot 1 (one_track_is false false l2) []) (Minor None)
        ≡ in_slot 2 (one_track_is false false l2) [] }

    // A request waits behind others, and 64 wait at most.
    ensures put { (slot : ℕ) (state : State)
        → after_event one_track (in_slot slot state (0 ∷ [])) (Put 0) ≡ in_slot slot state (0 ∷ 0 ∷ []) }
    ensures last_place { (slot : ℕ) (state : State)
        → after_event one_track (in_slot slot state (replicate 63 0)) (Put 0)
        ≡ in_slot slot state (replicate 64 0) }
    ensures full { (slot : ℕ) (state : State)
        → after_event one_track (in_slot slot state (replicate 64 0)) (Put 0)
        ≡ in_slot slot state (replicate 64 0) }

    // One request is taken; it sees what the report and the statement have done.
    ensures one_request { after_event one_track
        (in_slot 6 (one_track_is false true false) (0 ∷ 0 ∷ [])) (Minor None)
        ≡ in_slot 7 (one_track_is false true true) (0 ∷ []) }
    ensures refused { (l2 : Bool)
        → after_event one_track (in_slot 6 (one_track_is true true l2) (0 ∷ [])) (Minor None)
        ≡ in_slot 7 (one_track_is true true l2) [] }
    ensures report_first { after_event one_track
        (in_slot 5 (one_track_is true true false) (0 ∷ [])) (Minor (Some (69 ∷ 1 ∷ 254 ∷ 186 ∷ [])))
        ≡ in_slot 6 (one_track_is false true true) [] }
    ensures statement_first { after_event one_track
        (in_slot 0 (one_track_is false false false) (0 ∷ [])) (Minor None)
        ≡ in_slot 1 (one_track_is false true true) [] }

    // From the start: the track becomes clear in slot 5, L1 is set when slot 0 comes again, and then the request sets L2; in the next slot 5
    // a report is damaged, and the track becomes occupied.
    ensures history { after one_track (replicate 5 (Minor None)
        ++ Minor (Some (69 ∷ 1 ∷ 254 ∷ 186 ∷ []))
        ∷ (replicate 59 (Minor None)
        ++ Put 0
        ∷ Minor None
        ∷ (replicate 3 (Minor None) ++ Minor (Some (69 ∷ 1 ∷ 255 ∷ 186 ∷ [])) ∷ [])))
        ≡ in_slot 6 (one_track_is true true true) [] }
{}

/// The moments of the layout of one track from the start on: its module reports the track clear, the statement sets L1, and then the module is
/// silent. A statement whose guard fails makes no change.
pub fn worked_moments()
    ensures { moments_of one_track (replicate 5 (Minor None)
        ++ Minor (Some (69 ∷ 1 ∷ 254 ∷ 186 ∷ []))
        ∷ replicate 64 (Minor None))
        ≡ one_track_is true false false
        ∷ one_track_is true false false ∷ one_track_is false false false
        ∷ one_track_is false false false ∷ one_track_is false true false
        ∷ one_track_is false true false ∷ one_track_is true true false ∷ [] }
{}
