// Laws of the definitions, each on the contract of a function.
ghost use Rattle.tosca.specs.ArithmeticLaws.{Divides, Rounds, Limits, Kept, Zeros, Tests, Worked};
ghost use Rattle.tosca.specs.DecodeLaws.{Fuelled, Stepwise, Prefixed};
ghost use Rattle.tosca.specs.TableLaws.{Faithful, Written};

pub fn arithmetic_laws()
    ensures divides { Divides }
    ensures rounds { Rounds }
    ensures limits { Limits }
    ensures kept { Kept }
    ensures zeros { Zeros }
    ensures tests { Tests }
    ensures worked { Worked }
{}

pub fn table_laws()
    ensures faithful { Faithful }
    ensures written { Written }
{}

pub fn decode_laws()
    ensures fuelled { Fuelled }
    ensures stepwise { Stepwise }
    ensures prefixed { Prefixed }
{}
