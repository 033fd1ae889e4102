// A queue in places that are used in turn, the first again after the last.
ghost use Rattle.std.specs.Prelude.{◌<◌, ◌≤◌, List, ℤ};
ghost use Rattle.line.specs.Places.{held};

use crate::cells::Cells;
use std::marker::Model;

pub mod ops;

// A ring buffer by hand and not a VecDeque: no call of a line allocates, so the places are fixed.
#[derive(Drop)]
pub struct Queue<C: Cells> {
    cells: C,
    // the place of the first number, and how many wait
    head: usize,
    len: usize,
}

// Clauses see the numbers that wait, first to last.
impl<C: Cells> Model for Queue<C> {
    ghost Value = { List ℤ };

    ghost view = { λ q. held C.SIZE (C.cell q.cells) q.head q.len };

    ghost invariant = { λ q. (q.head < C.SIZE) × (q.len ≤ C.SIZE) };
}

// As many numbers wait as may.
#[derive(Drop)]
pub struct Full;
