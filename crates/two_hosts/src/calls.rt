// The list that is worked.
use clock_core::setting::Setting;
use host_runs::call::{HostCall, SessionCall};
use rx5c348a_runs::call::WireCall;

// The hosts by the numbers of their sessions.
pub(crate) const FIRST_HOST: usize = 0;

pub(crate) const SECOND_HOST: usize = 1;

// 00:00:58 on 1 January 2000, a Saturday.
const MOMENT: u64 = 3_155_760_058;

const SATURDAY: u32 = 6;

pub(crate) const START: Setting = Setting {
    moment: MOMENT,
    weekday: SATURDAY,
    trim: 0,
    mode: 1,
};

// Alarm_D at 00:01.
const ALARM_D: [u8; 2] = [0x01, 0x00];

const CONTROL: u32 = 14;

const FLAGS: u32 = 15;

// DALE and 24 hours.
const DAILY: u8 = 0x60;

// The first host sets an alarm; while it then reads, the minute ends, and the second host finds the time as it was.
pub(crate) const CALLS: [HostCall<'static>; 18] = [
    HostCall::Session(FIRST_HOST, SessionCall::Open),
    HostCall::Session(FIRST_HOST, SessionCall::Write(CONTROL, DAILY)),
    HostCall::Session(FIRST_HOST, SessionCall::BurstWrite(11, &ALARM_D)),
    HostCall::Session(FIRST_HOST, SessionCall::Close),
    HostCall::Wire(WireCall::Pulses(65_500)),
    HostCall::Session(FIRST_HOST, SessionCall::Open),
    HostCall::Session(FIRST_HOST, SessionCall::Read(0)),
    HostCall::Wire(WireCall::Pulses(100)),
    HostCall::Session(FIRST_HOST, SessionCall::Read(0)),
    HostCall::Session(FIRST_HOST, SessionCall::Read(16)),
    // a load that is refused
    HostCall::Wire(WireCall::Load(Setting {
        moment: MOMENT,
        weekday: 7,
        trim: 0,
        mode: 1,
    })),
    // the part is let go, so that the waiting second counts and the alarm rings, and is held again
    HostCall::Session(SECOND_HOST, SessionCall::Open),
    HostCall::Session(SECOND_HOST, SessionCall::Read(FLAGS)),
    HostCall::Session(SECOND_HOST, SessionCall::BurstRead(0, 7)),
    HostCall::Session(SECOND_HOST, SessionCall::Read(0)),
    HostCall::Session(SECOND_HOST, SessionCall::Close),
    HostCall::Session(FIRST_HOST, SessionCall::Close),
    HostCall::Wire(WireCall::Look(16)),
];
