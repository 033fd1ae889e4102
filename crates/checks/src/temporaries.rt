// Whether an expression needs too many temporaries.
ghost use Rattle.std.specs.Prelude.{◌≡◌, nat_lt};
ghost use Rattle.draft.specs.Opening.{tree_of};
ghost use Rattle.statics.specs.declared.rules.Rule.TheVariants.{Temporaries};
ghost use Rattle.statics.specs.Choosing.{lowest};
ghost use Rattle.statics.specs.Checking.{faults};

use draft::draft::{Draft, MAX_NODES};
use walk::temporaries::temporaries;

// The cells for temporaries.
const MAX_TEMPORARIES: u16 = 32;

fn too_many(need: u16) -> bool
    ensures { result ≡ nat_lt 32 need }
{
    need > MAX_TEMPORARIES
}

// The lowest expression that needs too many temporaries. What is no expression needs none.
pub(crate) fn too_large(draft: &Draft) -> Option<u16>
    ensures { result ≡ lowest (faults Temporaries (tree_of draft.now)) }
{
    // No call allocates, so a draft's nodes have room in an array.
    let mut needs = [0; MAX_NODES];
    temporaries(draft, &mut needs);
    let entries = draft.entries();
    let found = needs[..entries.len()]
        .iter()
        .position(|need| too_many(*need));
    found.map(|n| n as u16)
}
