// The state of a routine that keeps the static rules.
ghost use Rattle.std.specs.Prelude.{◌≡◌, true};
ghost use Rattle.draft.specs.Opening.{tree_of};
ghost use Rattle.checks.specs.Passing.{is_passed};

use draft::draft::Draft;

// Made by `pass` alone.
#[derive(Drop)]
pub struct Checked {
    pub(crate) draft: Draft,
    ghost passed: { is_passed (tree_of draft) ≡ true },
}
