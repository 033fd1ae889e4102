// What a line is: two lists of numbers, the readings that wait and the sends that wait, and a limit for each.
ghost use Rattle.std.specs.Prelude.{◌≡◌, ℕ, ◌≤◌, List, length, ℤ};
ghost use Rattle.line.specs.Queues.{first, enqueued, dequeued};
ghost use Rattle.line.specs.Answers.{feed_answer, send_answer, take_answer};

use crate::answers::{FeedRefusal, SendRefusal, TakeRefusal};

// The limits belong to the type, so no call changes them.
pub trait Line {
    ghost readings: { Self → List ℤ };

    ghost sends: { Self → List ℤ };

    ghost max_readings: { ℕ };

    ghost max_sends: { ℕ };

    // Adds a last reading.
    fn feed(&mut self, number: i32) -> Result<(), FeedRefusal>
        ensures answer { result ≡ feed_answer max_readings (readings self.old) }
        ensures readings { readings self.new ≡ enqueued max_readings number (readings self.old) }
        ensures sends { sends self.new ≡ sends self.old };

    // Removes and gives the first reading, or None where none waits yet.
    fn next(&mut self) -> Option<i32>
        ensures answer { result ≡ first (readings self.old) }
        ensures readings { readings self.new ≡ dequeued (readings self.old) }
        ensures sends { sends self.new ≡ sends self.old };

    // Adds a last send.
    fn send(&mut self, number: i32) -> Result<(), SendRefusal>
        ensures answer { result ≡ send_answer max_sends (sends self.old) }
        ensures readings { readings self.new ≡ readings self.old }
        ensures sends { sends self.new ≡ enqueued max_sends number (sends self.old) };

    // Removes and gives the first send.
    fn take(&mut self) -> Result<i32, TakeRefusal>
        ensures answer { result ≡ take_answer (sends self.old) }
        ensures readings { readings self.new ≡ readings self.old }
        ensures sends { sends self.new ≡ dequeued (sends self.old) };

    ghost max_readings_positive: { 1 ≤ max_readings };

    ghost max_sends_positive: { 1 ≤ max_sends };

    ghost readings_within: { (line : Self) → length (readings line) ≤ max_readings };

    ghost sends_within: { (line : Self) → length (sends line) ≤ max_sends };
}
