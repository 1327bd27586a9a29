// Two decimal digits.
#[derive(Clone, Copy, PartialEq, Eq, Debug)]
pub struct Digits {
    pub tens: u8,
    pub units: u8,
}
