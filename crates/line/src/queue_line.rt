// A line of two queues, each in places of one kind.
ghost use Rattle.std.specs.Prelude.{◌≡◌, ◌≤◌, [], length};

use crate::answers::{FeedRefusal, SendRefusal, TakeRefusal};
use crate::cells::Cells;
use crate::interface::Line;
use crate::queue::Queue;

#[derive(Drop)]
pub struct QueueLine<C: Cells> {
    readings: Queue<C>,
    sends: Queue<C>,
    ghost readings_within: { length readings ≤ C.SIZE },
    ghost sends_within: { length sends ≤ C.SIZE },
}

impl<C: Cells> QueueLine<C> {
    pub fn new() -> QueueLine<C>
        ensures readings { result.readings ≡ [] }
        ensures sends { result.sends ≡ [] }
    {
        QueueLine {
            readings: Queue::new(),
            sends: Queue::new(),
        }
    }
}

impl<C: Cells> Line for QueueLine<C> {
    ghost readings = { λ line. line.readings };

    ghost sends = { λ line. line.sends };

    ghost max_readings = { C.SIZE };

    ghost max_sends = { C.SIZE };

    ghost max_readings_positive = { C.size_positive };

    ghost max_sends_positive = { C.size_positive };

    ghost readings_within = { λ line. line.readings_within };

    ghost sends_within = { λ line. line.sends_within };

    fn feed(&mut self, number: i32) -> Result<(), FeedRefusal> {
        self.readings.push(number).map_err(|_| FeedRefusal::Full)
    }

    fn next(&mut self) -> Option<i32> {
        self.readings.pop()
    }

    fn send(&mut self, number: i32) -> Result<(), SendRefusal> {
        self.sends.push(number).map_err(|_| SendRefusal::Full)
    }

    fn take(&mut self) -> Result<i32, TakeRefusal> {
        self.sends.pop().ok_or(TakeRefusal::Empty)
    }
}
