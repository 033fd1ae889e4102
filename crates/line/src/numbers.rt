// 64 numbers, each in an element of an array.
ghost use Rattle.std.specs.Prelude.{◌≡◌, pos, replicate};
ghost use Rattle.line.specs.Cells.{number_cell};
ghost use Rattle.line.specs.declared.numbers.TheConstants.{NUMBERS};
ghost use Rattle.std.proofs.Common.{rules};

use crate::cells::Cells;

const NUMBERS: usize = 64;

#[derive(Drop)]
pub struct Numbers {
    elements: [i32; NUMBERS],
}

impl Cells for Numbers {
    const SIZE: usize = NUMBERS;

    ghost SIZE = { 64 };

    ghost cell = { number_cell };

    ghost size_positive = { Prim.search rules };

    #[tactic(auto, using(crate::proofs::Bytes::no_numbers))]
    fn new() -> Self {
        Numbers { elements: zeros() }
    }

    fn read(&self, place: usize) -> i32 {
        self.elements[place]
    }

    fn write(&mut self, place: usize, number: i32) {
        self.elements[place] = number;
    }
}

// A function of its own, so that another number than 0 is refused here.
fn zeros() -> [i32; NUMBERS]
    ensures { result ≡ replicate NUMBERS (pos 0) }
{
    [0; NUMBERS]
}
