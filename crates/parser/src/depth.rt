// How deep a token stands.
ghost use Rattle.std.specs.Prelude.{◌≤◌};

// Openers nest at most so deep.
pub const MAX_DEPTH: usize = 32;

// The count of openers that stand around.
#[derive(Clone, Copy)]
pub struct Depth {
    pub level: usize,
    pub ghost within: { level ≤ 32 },
}

impl Depth {
    // That of the commands of a routine, inside its body's begin.
    pub const BODY: Depth = Depth { level: 1 };
}
