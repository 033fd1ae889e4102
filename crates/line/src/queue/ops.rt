// A queue's calls.
ghost use Rattle.std.specs.Prelude.{◌≡◌, ◌<◌, ◌≤◌, []};
ghost use Rattle.line.specs.Queues.{accepts, if_room, first, enqueued, dequeued};
ghost use Rattle.line.specs.Places.{place};

use super::{Full, Queue};
use crate::cells::Cells;

// Of the places 0 to size - 1, the one that comes count after head, the first again after the last.
fn place_after(size: usize, head: usize, count: usize) -> usize
    requires { (head < size) × (count ≤ size) }
    ensures is { result ≡ place size head count }
    ensures within { result < size }
{
    let beyond = size - head;
    if count < beyond {
        head + count
    } else {
        count - beyond
    }
}

impl<C: Cells> Queue<C> {
    pub fn new() -> Queue<C>
        ensures { result ≡ [] }
    {
        Queue {
            cells: C::new(),
            head: 0,
            len: 0,
        }
    }

    #[tactic(auto, using(crate::proofs::Holding::room))]
    pub fn has_room(&self) -> bool
        ensures { result ≡ accepts C.SIZE self.now }
    {
        self.len < C::SIZE
    }

    // Adds a last number, where there is room.
    #[tactic(auto, using(crate::proofs::Holding::below))]
    pub fn push(&mut self, number: i32) -> Result<(), Full>
        ensures answer { result ≡ if_room C.SIZE self.old (record {}) }
        ensures after { self.new ≡ enqueued C.SIZE number self.old }
    {
        if !self.has_room() {
            return Err(Full);
        }
        let end = place_after(C::SIZE, self.head, self.len);
        self.cells.write(end, number);
        self.len += 1;
        Ok(())
    }

    // Removes and gives the first number.
    #[tactic(auto, using(crate::proofs::Holding::removed))]
    pub fn pop(&mut self) -> Option<i32>
        ensures answer { result ≡ first self.old }
        ensures after { self.new ≡ dequeued self.old }
    {
        if self.len == 0 {
            return None;
        }
        let number = self.cells.read(self.head);
        self.head = place_after(C::SIZE, self.head, 1);
        self.len -= 1;
        Some(number)
    }
}
