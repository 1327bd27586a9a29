// The list of calls.
use timekeeping::call::CoreCall;

pub(crate) const CALLS: [CoreCall; 20] = [
    CoreCall::Look(16),
    // a whole plain second, and part of the next
    CoreCall::Pulses(32_768),
    CoreCall::Pulses(20_000),
    CoreCall::Look(16),
    // the boundary of the hour is crossed while the core is held
    CoreCall::Hold,
    CoreCall::Pulses(20_000),
    CoreCall::Look(16),
    CoreCall::Read(2),
    CoreCall::Hold,
    CoreCall::Release,
    CoreCall::Look(16),
    CoreCall::Read(2),
    // the second that began in the stretch has 32,780 pulses, of which 7,232 are past
    CoreCall::Pulses(25_547),
    CoreCall::Look(16),
    CoreCall::Pulses(1),
    CoreCall::Look(16),
    // refused
    CoreCall::Release,
    CoreCall::Pulses(1_048_577),
    CoreCall::Look(15),
    CoreCall::Read(7),
];
