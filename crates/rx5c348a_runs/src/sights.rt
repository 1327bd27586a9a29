// What the law rests on: the onlooker misses nothing.
ghost use Rattle.rx5c348a_runs.specs.Complete.{EverythingIsSeen};

// Says that an onlooker at the wires misses no calendar cell given out, no write, no hold and no release, and sees none where none is.
pub fn everything_is_seen()
    ensures { EverythingIsSeen }
{}
