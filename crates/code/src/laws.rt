// Laws of the definitions, each on the contract of a function.
ghost use Rattle.code.specs.CodeLaws.{Faithful, AddressedMounts, Worked};

pub fn code_laws()
    ensures faithful { Faithful }
    ensures mounts { AddressedMounts }
    ensures worked { Worked }
{}
