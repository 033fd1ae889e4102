// Worked examples of numbers in registers.
ghost use Rattle.line_trials.specs.Examples.{Bytes};

pub fn worked_examples()
    ensures { Bytes }
{}
