// Plays standard input, as one tape, on a 348A at power-on; writes what the tape prints and, after a fault, the fault's line.
#![tactic(auto)]

use refusals::Refusal;
use rx5c348a::part::Rx5c348a;
use std::alloc::AllocError;
use std::io;
use std::io::{Read, Write};
use tape::fault::TapeFault;
use tape::play::{Playback, ReadyTape};
use thiserror::Error;

// One byte more than the longest tape, so that a longer one is seen to be too long.
const ENOUGH: u64 = 4097;

// What ends the program early. A fault of the tape is printed as its line; anything else ends it with status 1.
#[derive(Debug, Drop, Error)]
enum BenchError {
    #[error("standard input or output: {0}")]
    Io(#[from] io::Error),
    #[error("no memory for the tape")]
    NoMemory,
    #[error("no line: {0}")]
    Line(#[from] Refusal),
    #[error("a fault of the tape")]
    Tape(TapeFault),
}

// By hand: a variant that held the error would be printed otherwise.
impl From<AllocError> for BenchError {
    fn from(_value: AllocError) -> BenchError {
        BenchError::NoMemory
    }
}

impl From<TapeFault> for BenchError {
    fn from(fault: TapeFault) -> BenchError {
        BenchError::Tape(fault)
    }
}

fn main(rt: HostRuntime) -> Result<(), BenchError> {
    match play_input(&rt) {
        Err(BenchError::Tape(fault)) => write_fault(&rt, fault),
        ended => ended,
    }
}

// What the tape prints is written first, also where a fault ends it.
fn play_input(rt: &HostRuntime) -> Result<(), BenchError> {
    let mut bytes = Vec::new(rt.alloc());
    rt.stdin().take(ENOUGH).read_to_end(&mut bytes)?;
    let tape = ReadyTape::new(rt.alloc(), &bytes)?;
    let mut part = Rx5c348a::power_on();
    let Playback { printed, end } = tape.play(&mut part);
    rt.stdout().write_all(&printed)?;
    end?;
    Ok(())
}

// By the call that makers have too, into a buffer of its caller's.
fn write_fault(rt: &HostRuntime, fault: TapeFault) -> Result<(), BenchError> {
    let mut line = [0u8; 64];
    let length = fault.line(&mut line)?;
    rt.stdout().write_all(&line[0..length])?;
    Ok(())
}
