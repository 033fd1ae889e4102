// The lower of two nodes at fault, where there are any.
ghost use Rattle.std.specs.Prelude.{◌≡◌};
ghost use Rattle.checks.specs.Lowering.{lower_of};

pub(crate) fn lower(a: Option<u16>, b: Option<u16>) -> Option<u16>
    ensures { result ≡ lower_of a b }
{
    match (a, b) {
        (Some(a), Some(b)) => Some(a.min(b)),
        _ => a.or(b),
    }
}
