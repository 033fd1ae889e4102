// The laws that tie the automaton to the grammar, at what the reader builds, the node table.
ghost use Rattle.grammar.specs.Limits.{Complete, Sound, Reasoned, OneTree};
ghost use Rattle.grammar.specs.Listing.{Listing, list};

pub fn grammar_laws()
    ensures complete { Complete Listing list }
    ensures sound { Sound Listing list }
    ensures reasoned { Reasoned Listing list }
    ensures one_tree { OneTree }
{}
