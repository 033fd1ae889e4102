// Laws of the definitions, each on the contract of a function.
ghost use Rattle.aida.specs.MachineLaws.{Idle, Unaltered, Ending, OneEnd, Resumption};
ghost use Rattle.aida.specs.SourceLaws.{Loops, Bounded};
ghost use Rattle.aida.specs.TemplateLaws.{Lengths};
ghost use Rattle.aida.specs.Worked.{Worked};

// What holds of the source run.
pub fn source_laws()
    ensures loops { Loops }
    ensures bounded { Bounded }
{}

// What holds of every code.
pub fn machine_laws()
    ensures idle { Idle }
    ensures unaltered { Unaltered }
    ensures ending { Ending }
    ensures one_end { OneEnd }
    ensures resumption { Resumption }
{}

// How long the code of a routine is.
pub fn code_lengths()
    ensures { Lengths }
{}

// Worked examples.
pub fn worked_examples()
    ensures { Worked }
{}
