// What the calls of a line answer where they refuse.
ghost use Rattle.std.specs.Prelude.{◌≡◌};
ghost use Rattle.line.specs.Answers.{feed_number, take_number};

// Why a reading is not accepted.
#[derive(Clone, Copy, PartialEq, Debug)]
pub enum FeedRefusal {
    // as many readings wait as may
    Full = 51,
}

// Why a send is not accepted. It has no number: who sends keeps the number and sends it again later.
#[derive(Clone, Copy, PartialEq, Debug)]
pub enum SendRefusal {
    // as many sends wait as may
    Full,
}

// Why there is no send to take.
#[derive(Clone, Copy, PartialEq, Debug)]
pub enum TakeRefusal {
    // no send waits
    Empty = 52,
}

impl FeedRefusal {
    pub fn number(self) -> u8
        ensures { result ≡ feed_number self }
    {
        self as u8
    }
}

impl TakeRefusal {
    pub fn number(self) -> u8
        ensures { result ≡ take_number self }
    {
        self as u8
    }
}
