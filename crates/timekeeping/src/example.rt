// The premises of the law can be met.
ghost use Rattle.timekeeping.specs.Example.{PremisesCanBeMet};

// Says that on every lawful map a list with a boundary crossed while held meets the premises.
pub fn premises_can_be_met()
    ensures { PremisesCanBeMet }
{}
