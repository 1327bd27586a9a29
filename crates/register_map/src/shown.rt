// What a map shows.
// The moment is in seconds since the map's cycle began; a weekday is 0 to 6.
#[derive(Clone, Copy, PartialEq, Eq, Debug)]
pub struct Shown {
    pub moment: u64,
    pub weekday: u8,
}
