// The calls on a panel and its line once it is started, and their answers.
ghost use Rattle.std.specs.Prelude.{◌≡◌};
ghost use Rattle.aida.specs.Refusals.{refusal_number};

use crate::status::Status;

#[derive(Clone, Copy, PartialEq, Debug)]
pub enum Call {
    Feed(i32),
    // with the turns that it grants
    Run(u32),
    Take,
}

#[derive(Clone, Copy, PartialEq, Debug)]
pub enum Refusal {
    NoRoom = 51,
    NoSend = 52,
    GrantTooLarge = 61,
    Ended = 62,
    TooManyTurns = 63,
}

// What a call that is not refused does.
#[derive(Clone, Copy, PartialEq, Debug)]
pub enum Answer {
    Fed,
    Took(i32),
    // the stop, and the turns spent over all runs
    Ran(Status, u32),
}

// What a call comes to.
pub type Reply = Result<Answer, Refusal>;

impl Refusal {
    // The number that users see.
    pub fn number(self) -> u8
        ensures { result ≡ refusal_number self }
    {
        self as u8
    }
}
