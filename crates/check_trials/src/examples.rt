// Worked examples of the verdict, from the bytes of a text.
ghost use Rattle.check_trials.specs.Examples.{Unset, Temporaries};

pub fn worked_examples()
    ensures unset { Unset }
    ensures temporaries { Temporaries }
{}
