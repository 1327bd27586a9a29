// The premises of the law can be met on the wires.
ghost use Rattle.rx5c348a_runs.specs.Example.{PremisesCanBeMet};

// Says that on every loaded part a list with reads on both sides of a boundary in one held stretch meets the premises.
pub fn premises_can_be_met()
    ensures { PremisesCanBeMet }
{}
