// The calls of hosts as data, and what they answer.
use rx5c348a_runs::call::{WireAnswer, WireCall};

#[derive(Clone, Copy, PartialEq, Eq, Debug)]
pub enum SessionCall<'a> {
    Open,
    Close,
    Read(u32),
    Write(u32, u8),
    // so many bytes into the hosts' buffer, as far as it reaches
    BurstRead(u32, usize),
    BurstWrite(u32, &'a [u8]),
}

#[derive(Clone, Copy, PartialEq, Eq, Debug)]
pub enum HostCall<'a> {
    // a call on the part itself
    Wire(WireCall),
    // a call of the session of this number
    Session(usize, SessionCall<'a>),
}

// What is answered to a call that no one refused.
#[derive(Clone, Copy, PartialEq, Eq, Debug)]
pub enum HostAnswer {
    Wire(WireAnswer),
    Done,
    Byte(u8),
    // the bytes that a burst moved
    Moved(usize),
    // no program makes this call in this state of its session: nothing was done
    DoesNotBuild,
    // no session has this number: nothing was done
    NoSuchSession,
}
