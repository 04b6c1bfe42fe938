//! The machine: a run as steps over a stack, which does what the written meaning says.
#![tactic(auto)]

ghost use Rattle.cc_acts.specs.Verdicts.{VerdictLaws};
ghost use Rattle.cc_machine.specs.Promises.{MachineMeans, MachineAnswers, LoopLaws};

mod focus;
mod frame;
mod gives;
mod machine;
mod reach;
mod wants;

/// From its start the machine comes to the end that the meaning says, in every mode, for every
/// program, script and budget.
pub fn machine_means()
    ensures means { MachineMeans }
    ensures answers { MachineAnswers }
{}

/// What a loop of steps needs: that it keeps the end that is to come, that fewer steps are left
/// after each, and that the end is the right one.
pub fn loop_laws()
    ensures loops { LoopLaws }
    ensures verdicts { VerdictLaws (Unit {0}) }
{}
