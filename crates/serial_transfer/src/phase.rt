// What a transfer is made of.
ghost use Rattle.std.specs.Prelude.{◌≡◌};
ghost use Rattle.serial_transfer.specs.Levels.{level_out, out_number};

// What stands on SO. Not an Option of a level: off is a state of the wire, with a number of its own.
#[derive(Clone, Copy, PartialEq, Eq, Debug)]
pub enum SerialOut {
    Low,
    High,
    Off,
}

impl SerialOut {
    // A bit put on SO. By name: a `From` would read the number of off, 2, as high.
    pub(crate) fn of_bit(bit: u8) -> SerialOut
        ensures { result ≡ level_out bit }
    {
        if bit == 0 {
            SerialOut::Low
        } else {
            SerialOut::High
        }
    }
}

// Off is 2.
impl From<SerialOut> for u8 {
    ghost from_gives = { λ out number. number ≡ out_number out };

    fn from(out: SerialOut) -> u8 {
        match out {
            SerialOut::Low => 0,
            SerialOut::High => 1,
            SerialOut::Off => 2,
        }
    }
}

// The four transfers that a header can ask for.
#[derive(Clone, Copy, PartialEq, Eq, Debug)]
pub enum Format {
    SingleWrite,
    BurstWrite,
    SingleRead,
    BurstRead,
}

// A byte that was written, and the register that it is for, below 16. A type that said so would ask it of whoever makes a landing.
#[derive(Clone, Copy, PartialEq, Eq, Debug)]
pub struct Landing {
    pub address: u8,
    pub byte: u8,
}

// Where a transfer stands. `bits` counts the falls of SCLK that the byte under way has had.
#[derive(Clone, Copy, PartialEq, Eq, Debug)]
pub enum Phase {
    // CE is low
    Idle,
    // a header comes in
    Header {
        bits: u8,
        gathered: u8,
    },
    // a data byte comes in
    Write {
        address: u8,
        burst: bool,
        bits: u8,
        gathered: u8,
    },
    // a data byte goes out: it is fixed at its first rise
    Read {
        address: u8,
        burst: bool,
        bits: u8,
        byte: u8,
        out: SerialOut,
    },
    // the header had no known format
    Deaf,
}
