//! What the steps of a script leave as it was.

ghost use Rattle.std.specs.Prelude.{All, List};
ghost use Rattle.ssi_identities.specs.DataSets.{Plan};
ghost use Rattle.ssi_identities.specs.Wells.{IsWell};
ghost use Rattle.ssi_trackside.specs.Module.{ModuleState};
ghost use Rattle.ssi_script.specs.declared.step.ScriptStep.{ScriptStep as Step};
ghost use Rattle.ssi_script.specs.Meanings.{IsStepOf};
ghost use Rattle.ssi_script.specs.OthersStay.{OthersStay};
ghost use Rattle.ssi_script.specs.Sessions.{after_steps, session_of};
ghost use Rattle.ssi_script.specs.Traces.{steps_pieces};

/// Steps that can be done on a well layout leave each member of a shelf that belongs to no module of it as it was, at each piece that they write and behind them.
pub fn others_stay()
    ensures pieces { (plan : Plan) (steps : List Step) (shelf : List ModuleState) → IsWell plan → All (IsStepOf plan) steps
        → All (λ piece. OthersStay plan shelf piece.standing) (steps_pieces steps (session_of plan shelf)) }
    ensures behind { (plan : Plan) (steps : List Step) (shelf : List ModuleState) → IsWell plan → All (IsStepOf plan) steps
        → OthersStay plan shelf (after_steps steps (session_of plan shelf)).shelf }
{}
