// 60 numbers in 120 registers of 16 bits: two registers to a number, the high one first, and each register's high byte first.
ghost use Rattle.std.specs.Prelude.{◌≡◌, replicate};
ghost use Rattle.line.specs.Cells.{register_cell};
ghost use Rattle.line.specs.declared.bank.TheConstants.{BYTES};
ghost use Rattle.std.proofs.Common.{rules};

use crate::cells::Cells;

const NUMBERS: usize = 60;

const BYTES: usize = 4 * NUMBERS;

#[derive(Drop)]
pub struct Bank {
    bytes: [u8; BYTES],
}

impl Cells for Bank {
    const SIZE: usize = NUMBERS;

    ghost SIZE = { 60 };

    ghost cell = { register_cell };

    ghost size_positive = { Prim.search rules };

    #[tactic(auto, using(crate::proofs::Bytes::blank_bytes))]
    fn new() -> Self {
        Bank { bytes: zeros() }
    }

    fn read(&self, place: usize) -> i32 {
        let at = 4 * place;
        i32::from_be_bytes([
            self.bytes[at],
            self.bytes[at + 1],
            self.bytes[at + 2],
            self.bytes[at + 3],
        ])
    }

    #[tactic(auto, using(crate::proofs::Bytes::written, crate::proofs::Bytes::kept))]
    fn write(&mut self, place: usize, number: i32) {
        let at = 4 * place;
        self.bytes[at..at + 4].copy_from_slice(&number.to_be_bytes());
    }
}

// A function of its own, so that another byte than 0 is refused here.
fn zeros() -> [u8; BYTES]
    ensures { result ≡ replicate BYTES 0 }
{
    [0; BYTES]
}
