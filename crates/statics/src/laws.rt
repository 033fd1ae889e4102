// Laws of the definitions, on the contract of a function.
ghost use Rattle.statics.specs.StaticLaws.{StaticLaws, FaultsMean, VerdictMeans};
ghost use Rattle.statics.specs.Worked.{Worked};

pub fn static_laws()
    ensures judged { StaticLaws }
    ensures faults { FaultsMean }
    ensures verdicts { VerdictMeans }
    ensures worked { Worked }
{}
