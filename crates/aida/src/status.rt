// What a machine can do next, and why it stopped.
use tosca::operators::Cause;

#[derive(Clone, Copy, PartialEq, Debug)]
pub enum Status {
    Ready,
    // an input found no reading
    Waiting,
    // an output found no room
    Held,
    // a transfer back found no turn
    Spent,
    // past the last instruction
    Finished,
    // the cause, and the operator's node
    Faulted(Cause, u16),
}
