//! One induction over the run, for every phase: what a relation between two runs owes, so that two
//! programs whose parts are tied have tied runs. The functions here state laws that follow of it,
//! and do nothing.
#![tactic(auto)]

pub mod examples;

ghost use Rattle.cc_meaning.specs.Script.{checked, plain};
ghost use Rattle.cc_tied.specs.Promises.{DepthIsEnough, BudgetExtends, Erasure, AgreementFollowsSame, AlikeRuns, AgreementReachesAlike, Joining};

/// A depth of calls that is the budget's suffices.
pub fn depth_is_enough()
    ensures of_checked { DepthIsEnough checked }
    ensures of_plain { DepthIsEnough plain }
{}

/// What a run does at a budget it does at every larger one, where it may go on.
pub fn budget_extends()
    ensures of_checked { BudgetExtends checked }
    ensures of_plain { BudgetExtends plain }
{}

/// Price marks, annotations, casts and checks make no difference to a run that breaks no rule.
pub fn erasure()
    ensures { Erasure }
{}

/// Agreement goes over to what does the same.
pub fn agreement_follows_same()
    ensures { AgreementFollowsSame }
{}

/// Alike programs do the same in the plain run.
pub fn alike_runs()
    ensures { AlikeRuns }
{}

/// Agreement goes over to what is alike.
pub fn agreement_reaches_alike()
    ensures { AgreementReachesAlike }
{}

/// Steps that keep Same, and then an output that is alike to the last program: the output's plain
/// run agrees with the source's checked run.
pub fn joining()
    ensures { Joining }
{}
