// Code that a panel can rely on.
ghost use Rattle.std.specs.Prelude.{◌≡◌, ◌≤◌, true, take};
ghost use Rattle.aida.specs.TemplateLaws.{all_addressed};

use aida::instructions::Coded;

// A table has at most so many instructions.
pub const MAX_INSTRUCTIONS: usize = 2048;

// Made by `mount` alone. The first `count` instructions are the code; the others are blank.
// An array with its length beside it, since no call below the program allocates.
#[derive(Drop)]
pub struct Mounted {
    pub(crate) code: [Coded; MAX_INSTRUCTIONS],
    pub(crate) count: usize,
    ghost few: { count ≤ 2048 },
    ghost within: { all_addressed count (take count code) ≡ true },
}
