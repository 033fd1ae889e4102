// What the numbers of names say, as laws of the definitions.
ghost use Rattle.lexer.specs.NameLaws.{NameLaw, SameNumber};

// Two names have the same number just if they are the same word; the first number above 63 is that of the 65th different name.
pub fn name_laws()
    ensures { (SameNumber) × (NameLaw) }
{}
