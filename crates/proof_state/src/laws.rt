//! Laws of the definitions.
ghost use Rattle.proof_state.specs.Laws.{StepsKeepProofs, StepsKeepGoals, StepsCloseGoals, WholeWhereSolved, UnsolvedMayBeFilled, StepsKeepScopes, FillingsFit};

/// What every state is, what a step does with its goal and leaves alone, when a proof may be closed and a goal be
/// filled.
pub fn law_of_steps()
    ensures proofs { StepsKeepProofs }
    ensures goals { StepsKeepGoals }
    ensures closed { StepsCloseGoals }
    ensures whole { WholeWhereSolved }
    ensures filled { UnsolvedMayBeFilled }
{}

/// Where all goals of a proof are in the scope of an environment, a step with what is in scope is allowed, and all
/// goals stay in scope.
#[tactic(auto, using(crate::proofs::GoalScopes::steps_keep_scopes, crate::proofs::GoalScopes::fillings_fit))]
pub fn law_of_scopes()
    ensures steps { StepsKeepScopes }
    ensures fits { FillingsFit }
{}
