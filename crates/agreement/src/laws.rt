// The laws that tie the code of a routine to its source run and its plan, each on the contract of a function.
ghost use Rattle.agreement.specs.Agreement.{Answering, OneAnswering, Agreement};
ghost use Rattle.agreement.specs.NeverStuck.{NeverStuck, Addressed};
ghost use Rattle.agreement.specs.Passed.{FewInstructions, PassedCode, PassedRuns, PassedAgreement};
ghost use Rattle.agreement.specs.Simulation.{ExprSimulation, CmdSimulation, RoutineSimulation};

// The code does what the source run does.
pub fn simulation_laws()
    ensures expressions { ExprSimulation }
    ensures commands { CmdSimulation }
    ensures routines { RoutineSimulation }
{}

// What holds of a checked routine.
pub fn checked_laws()
    ensures never_stuck { NeverStuck }
    ensures addressed { Addressed }
{}

// A machine beside its line answers every call in one way, and a checked routine's as the plan does.
pub fn agreement_laws()
    ensures answering { Answering }
    ensures one_answering { OneAnswering }
    ensures agreement { Agreement }
{}

// The same of a formed table whose routine the check passes.
pub fn passed_laws()
    ensures few { FewInstructions }
    ensures code { PassedCode }
    ensures runs { PassedRuns }
    ensures agreement { PassedAgreement }
{}
