// One pass over the entries of a draft, for the first that is at fault.
ghost use Rattle.std.specs.Prelude.{◌≡◌, ℕ, ◌<◌, Bool, length};
ghost use Rattle.draft.specs.Opening.{entries_of};
ghost use Rattle.statics.specs.Scanning.{first_of};

use crate::nodes::count;
use draft::draft::Draft;

// The lowest node at fault, by any p that says what the test says.
pub(crate) fn first_fault<F: Fn(u16) -> bool>(draft: &Draft, test: F) -> Option<u16>
    requires { (n : ℕ) → n < length (entries_of draft.now) → F.pre test n }
    ensures { (p : ℕ → Bool) → ((n : ℕ) (r : Bool) → F.post test n r → r ≡ p n) → result ≡ first_of p 0 (length (entries_of draft.now)) }
{
    (0..count(draft)).find(
        |n|
            requires { F.pre test n.now }
            ensures { F.post test n.now result }
        { test(*n) },
    )
}
