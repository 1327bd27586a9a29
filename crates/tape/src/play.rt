// Playing a tape on a part.
ghost use Rattle.std.specs.Prelude.{◌≡◌, ◌+◌, ◌*◌, ◌<◌, ◌≤◌, ◌++◌, length, IfOk, OnOk, vec_len, vec_capacity};
ghost use Rattle.rx5c348a.specs.Part.{seen, load_part};
ghost use Rattle.tape.specs.Playing.{bench, tape_weekday, give_levels, perform_record, step_view, play_one, one_record, with_place, play_rest, rest_after_step};
ghost use Rattle.tape.specs.Tapes.{played, play_tape, room_for};
ghost use Rattle.tape.specs.Written.{InOrder};

use crate::fault::{RecordFault, TapeFault};
use crate::record::{Record, read_record};
use clock_core::setting::Setting;
use lines::{Origin, record_line};
use refusals::Refusal;
use rx5c348a::part::Rx5c348a;
use std::alloc::{AllocError, Global};

// A load sets this hour mode: 24 hours.
const TWENTY_FOUR_HOURS: u32 = 1;

// Loads a moment with the weekday that follows from it, trim 0 and 24 hours.
fn load(moment: u64, part: &mut Rx5c348a) -> Result<(), Refusal>
    ensures { (result, seen part.new)
        ≡ load_part (seen part.old) moment (tape_weekday moment) 0 1 }
{
    let weekday = (moment / 86_400 % 7) as u32;
    part.load(Setting {
        moment,
        weekday,
        trim: 0,
        mode: TWENTY_FOUR_HOURS,
    })
}

// Gives pin levels. What SO and /INTR then show is not printed.
fn give_levels(levels: u64, part: &mut Rx5c348a) -> Result<(), Refusal>
    ensures { (result, seen part.new) ≡ give_levels (seen part.old) levels }
{
    part.pins(levels)?;
    Ok(())
}

// The registers after a number, by the call that makers have too.
fn print(number: u64, part: &Rx5c348a, line: &mut [u8; 64]) -> Result<usize, Refusal>
    ensures does { (result, seen part.now, line.new)
        ≡ perform_record (Record.Print number) (seen part.now) line.old }
    ensures short { IfOk result (λ count. count ≤ 54) }
{
    record_line(number, &part.registers(), line)
}

// Does what a record asks for, and puts what it prints at the front of a line. Answers how many
// bytes that are.
fn perform(record: Record, part: &mut Rx5c348a, line: &mut [u8; 64]) -> Result<usize, Refusal>
    ensures does { (result, seen part.new, line.new)
        ≡ perform_record «record» (seen part.old) line.old }
    ensures short { IfOk result (λ count. count ≤ 54) }
{
    match record {
        Record::Load(moment) => load(moment, part)?,
        Record::Pulses(count) => part.pulses(count)?,
        Record::Levels(levels) => give_levels(levels, part)?,
        Record::Print(number) => return print(number, part, line),
    }
    Ok(0)
}

/// Takes one record off the front of a tape and does it on the part. What it prints is put at the
/// front of `line`. Answers how many bytes that are, and the rest of the tape. It needs no heap.
pub fn play_record<'t>(
    tape: &'t [u8],
    part: &mut Rx5c348a,
    line: &mut [u8; 64],
) -> Result<(usize, &'t [u8]), RecordFault>
    ensures does { (step_view result, seen part.new, line.new)
        ≡ play_one tape.now (seen part.old) line.old }
    ensures short { IfOk result (λ step. step.0 ≤ 54) }
    ensures shorter { IfOk result (λ step. length step.1.now + 2 ≤ length tape.now) }
{
    let (record, rest) = read_record(tape)?;
    let printed = perform(record, part, line)?;
    Ok((printed, rest))
}

// Bytes behind those that stand, where room was taken for them: it takes no more.
fn append_reserved(printed: &mut Vec<u8>, bytes: &[u8])
    requires { vec_len printed.old + length bytes.now ≤ vec_capacity printed.old }
    ensures items { printed.new.items ≡ printed.old.items ++ bytes.now }
    ensures len { vec_len printed.new ≡ vec_len printed.old + length bytes.now }
    ensures room { vec_capacity printed.new ≡ vec_capacity printed.old }
{
    for byte in bytes {
        printed.push_reserved(*byte);
    }
}

// What is left of a tape that is played, and what it has printed.
// The part is passed beside it: a borrow in here would have to be named again in every contract.
#[derive(Drop)]
struct Playing<'t> {
    rest: &'t [u8],
    printed: Vec<u8>,
    // Room for all that the rest can print was taken before any record ran.
    ghost room: { vec_len printed + 27 * length rest.now ≤ vec_capacity printed },
}

impl Playing<'_> {
    // Plays the next record.
    fn step(&mut self, part: &mut Rx5c348a) -> Result<(), RecordFault>
        ensures does { (
          rest_after_step result self.new.rest.now,
          bench (seen part.new) self.new.printed.items,
        )
            ≡ one_record self.old.rest.now (bench (seen part.old) self.old.printed.items) }
        ensures shorter { OnOk result (length self.new.rest.now < length self.old.rest.now) }
        ensures room { vec_capacity self.new.printed ≡ vec_capacity self.old.printed }
    {
        let mut line = [0u8; 64];
        let (length, rest) = play_record(self.rest, part, &mut line)?;
        self.rest = rest;
        append_reserved(&mut self.printed, &line[..length]);
        Ok(())
    }

    // The same, of a record at a place, which a fault is given.
    fn step_at(&mut self, place: usize, part: &mut Rx5c348a) -> Result<(), TapeFault>
        ensures does { (
          rest_after_step result self.new.rest.now,
          bench (seen part.new) self.new.printed.items,
        )
            ≡ with_place place
            (one_record self.old.rest.now (bench (seen part.old) self.old.printed.items)) }
        ensures shorter { OnOk result (length self.new.rest.now < length self.old.rest.now) }
        ensures room { vec_capacity self.new.printed ≡ vec_capacity self.old.printed }
    {
        self.step(part).map_err(|fault| fault.at(place))
    }

    // The records, one after the other, until the tape ends or one is refused.
    fn run(&mut self, part: &mut Rx5c348a) -> Result<(), TapeFault>
        ensures does { (result, bench (seen part.new) self.new.printed.items)
            ≡ play_rest (length self.old.rest.now) self.old.rest.now
            (bench (seen part.old) self.old.printed.items) }
        ensures room { vec_capacity self.new.printed ≡ vec_capacity self.old.printed }
    {
        let total = self.rest.len();
        while !self.rest.is_empty() {
            self.step_at(total - self.rest.len(), part)?;
        }
        Ok(())
    }
}

// The longest tape that is played.
const LONGEST_TAPE: usize = 4096;

// A print record has at least two bytes and prints at most 54, so this much room for each byte of a tape is enough.
const ROOM_FOR_A_BYTE: usize = 27;

// What a tape has printed, and how it ended.
#[derive(Drop)]
pub struct Playback {
    pub printed: Vec<u8>,
    pub end: Result<(), TapeFault>,
}

/// A tape with room for all that it can print, so that nothing is wanting once it runs.
#[derive(Drop)]
pub struct ReadyTape<'t> {
    pub bytes: &'t [u8],
    pub printed: Vec<u8>,
    ghost unplayed: { vec_len printed ≡ 0 },
    // too long a tape is not run, and needs none
    ghost room: { length bytes.now ≤ 4096 → 27 * length bytes.now ≤ vec_capacity printed },
}

impl<'t> ReadyTape<'t> {
    /// Takes 27 bytes for each byte of the tape, and none for one that is too long. Fails where these
    /// are not to be had.
    pub fn new(heap: Global, tape: &'t [u8]) -> Result<ReadyTape<'t>, AllocError>
        ensures tape { IfOk result (λ ready. ready.bytes.now ≡ tape.now) }
        ensures room { IfOk result (λ ready. vec_capacity ready.printed ≡ room_for tape.now) }
    {
        let room = if tape.len() <= LONGEST_TAPE {
            tape.len() * ROOM_FOR_A_BYTE
        } else {
            0
        };
        Ok(ReadyTape {
            bytes: tape,
            printed: Vec::with_capacity(heap, room)?,
        })
    }

    /// Plays the tape on a part. `does` gives the outcome for every tape; `in_order` says what that
    /// means for the records that a tape is written with.
    pub fn play(self, part: &mut Rx5c348a) -> Playback
        ensures does { played result (seen part.new)
            ≡ play_tape self.entry.bytes.now (seen part.old) }
        ensures in_order { InOrder self.entry.bytes.now (seen part.old)
            (played result (seen part.new)) }
        ensures room { vec_capacity result.printed ≡ vec_capacity self.entry.printed }
    {
        let ReadyTape { bytes, printed } = self;
        play_in_order(bytes, printed, part)
    }
}

// Plays a tape in whose room nothing is printed yet.
fn play_in_order(tape: &[u8], printed: Vec<u8>, part: &mut Rx5c348a) -> Playback
    requires unplayed { vec_len printed ≡ 0 }
    requires room { length tape.now ≤ 4096 → 27 * length tape.now ≤ vec_capacity printed }
    ensures does { played result (seen part.new) ≡ play_tape tape.now (seen part.old) }
    ensures in_order { InOrder tape.now (seen part.old) (played result (seen part.new)) }
    ensures room { vec_capacity result.printed ≡ vec_capacity printed }
{
    play_bytes(tape, printed, part)
}

// Refuses a tape that is too long; runs any other.
fn play_bytes(tape: &[u8], printed: Vec<u8>, part: &mut Rx5c348a) -> Playback
    requires unplayed { vec_len printed ≡ 0 }
    requires room { length tape.now ≤ 4096 → 27 * length tape.now ≤ vec_capacity printed }
    ensures does { played result (seen part.new) ≡ play_tape tape.now (seen part.old) }
    ensures room { vec_capacity result.printed ≡ vec_capacity printed }
{
    if tape.len() > LONGEST_TAPE {
        let fault = TapeFault {
            refusal: Refusal::TapeTooLong,
            place: LONGEST_TAPE,
            origin: Origin::Tape,
        };
        return Playback {
            printed,
            end: Err(fault),
        };
    }
    let mut playing = Playing {
        rest: tape,
        printed,
    };
    let end = playing.run(part);
    let Playing { printed, .. } = playing;
    Playback { printed, end }
}
