// Worked examples of what reading is defined to give.
ghost use Rattle.trials.specs.Examples.{Empty, Writes, Refusals};

pub fn worked_examples()
    ensures empty { Empty }
    ensures writes { Writes }
    ensures refusals { Refusals }
{}
