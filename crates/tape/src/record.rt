// One record is taken off the front of a tape.
ghost use Rattle.std.specs.Prelude.{◌≡◌, ◌+◌, ◌*◌, ◌%◌, ◌^◌, ◌≤◌, length, IfOk};
ghost use Rattle.tape.specs.Records.{number_view, record_view, refusal_of, kind_of, record_of, read_number, read_record};

use refusals::Refusal;

// What a record asks for.
#[derive(Clone, Copy, PartialEq, Eq, Debug)]
pub enum Record {
    // load this moment
    Load(u64),
    // give so many pulses
    Pulses(u64),
    // give these pin levels
    Levels(u64),
    // print the registers after this number
    Print(u64),
}

// What the kind byte says of the number that follows it. Apart from the record, since a kind is refused before its number is read.
#[derive(Clone, Copy)]
pub enum Kind {
    LoadMoment,
    GivePulses,
    GiveLevels,
    PrintRegisters,
}

// A refusal by the tape itself: the part was not asked.
#[derive(Clone, Copy, PartialEq, Eq, Debug)]
pub enum TapeRefusal {
    // no record begins with this byte
    UnknownKind,
    // the tape ends inside a record
    TapeEnds,
    // a number of more than five groups, or with a padded last group
    BadNumber,
    // what a reader of other kinds of records refuses; reading one here never does
    Other(Refusal),
}

impl From<TapeRefusal> for Refusal {
    ghost from_gives = { λ refused refusal. refusal ≡ refusal_of refused };

    fn from(refused: TapeRefusal) -> Refusal {
        match refused {
            TapeRefusal::UnknownKind => Refusal::UnknownKind,
            TapeRefusal::TapeEnds => Refusal::TapeEnds,
            TapeRefusal::BadNumber => Refusal::BadNumber,
            TapeRefusal::Other(refusal) => refusal,
        }
    }
}

impl TryFrom<u8> for Kind {
    type Error = TapeRefusal;

    ghost try_from_gives = { λ byte answer. answer ≡ kind_of byte };

    fn try_from(byte: u8) -> Result<Kind, TapeRefusal> {
        match byte {
            0x4D => Ok(Kind::LoadMoment),
            0x50 => Ok(Kind::GivePulses),
            0x57 => Ok(Kind::GiveLevels),
            0x4C => Ok(Kind::PrintRegisters),
            _ => Err(TapeRefusal::UnknownKind),
        }
    }
}

impl Kind {
    fn with(self, number: u64) -> Record
        ensures { result ≡ record_of self number }
    {
        match self {
            Kind::LoadMoment => Record::Load(number),
            Kind::GivePulses => Record::Pulses(number),
            Kind::GiveLevels => Record::Levels(number),
            Kind::PrintRegisters => Record::Print(number),
        }
    }
}

// The seven bits of a group, at the weight of its place.
fn weighed(group: u8, place: usize) -> u64
    requires { place ≤ 4 }
    ensures { result ≡ (group % 128) * 2 ^ (7 * place) }
{
    u64::from(group % 128) << (7 * place)
}

// A number from the front of the tape, and what follows it. Bit 7 of a group says that another, of higher bits, follows.
fn read_number(tape: &[u8]) -> Result<(u64, &[u8]), TapeRefusal>
    ensures { number_view result ≡ read_number tape.now }
{
    let mut number = 0;
    for (place, group) in tape.iter().enumerate() {
        number += weighed(*group, place);
        if *group < 128 {
            if *group == 0 && place > 0 {
                return Err(TapeRefusal::BadNumber);
            }
            return Ok((number, &tape[place + 1..]));
        }
        if place == 4 {
            return Err(TapeRefusal::BadNumber);
        }
    }
    Err(TapeRefusal::TapeEnds)
}

// One record from the front of the tape, and the rest. A record has at least two bytes.
pub fn read_record(tape: &[u8]) -> Result<(Record, &[u8]), TapeRefusal>
    ensures reads { record_view result ≡ read_record tape.now }
    ensures shorter { IfOk result (λ read. length read.1.now + 2 ≤ length tape.now) }
{
    let [byte, rest @ ..] = tape else {
        return Err(TapeRefusal::TapeEnds);
    };
    let kind = Kind::try_from(*byte)?;
    let (number, rest) = read_number(rest)?;
    Ok((kind.with(number), rest))
}
