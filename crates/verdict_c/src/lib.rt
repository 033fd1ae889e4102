// The entry for editors written in C: the static library that they link.
#![tactic(auto)]

ghost use Rattle.std.specs.Prelude.{◌≡◌};
ghost use Rattle.verdict.specs.Verdicts.{verdict_of};

use verdict::editor::Verdict;

#[unsafe(no_mangle)]
pub extern "C" fn wisnoeur_verdict(text: &[u8]) -> Verdict
    ensures number { result.number ≡ (verdict_of text.now).number }
    ensures place { result.place ≡ (verdict_of text.now).place }
{
    verdict::editor::wisnoeur_verdict(text)
}
