// Where the law begins.
ghost use Rattle.rx5c348a_runs.specs.Start.{LoadedIsNew};

// Says that the law begins where an accepted load leaves a part.
pub fn loaded_is_new()
    ensures { LoadedIsNew }
{}
