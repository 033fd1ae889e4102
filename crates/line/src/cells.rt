// Places, numbered from 0, that each hold a number.
ghost use Rattle.std.specs.Prelude.{◌≡◌, ℕ, ◌<◌, ◌≤◌, ◌≢◌, ℤ, pos};

pub trait Cells {
    // how many places there are
    const SIZE: usize;

    ghost SIZE: { ℕ };

    // the number in a place
    ghost cell: { Self → ℕ → ℤ };

    // Places that all hold 0.
    fn new() -> Self
        ensures { (k : ℕ) → k < SIZE → cell result k ≡ pos 0 };

    fn read(&self, place: usize) -> i32
        requires { place < SIZE }
        ensures { result ≡ cell self.now place };

    fn write(&mut self, place: usize, number: i32)
        requires { place < SIZE }
        ensures here { cell self.new place ≡ number }
        ensures elsewhere { (k : ℕ) → k ≢ place → cell self.new k ≡ cell self.old k };

    ghost size_positive: { 1 ≤ SIZE };
}
