// What a load sets.
// The numbers are as a host gives them: load refuses those that no map shows or no trim or hour mode has.
#[derive(Clone, Copy, PartialEq, Eq, Debug)]
pub struct Setting {
    pub moment: u64,
    pub weekday: u32,
    pub trim: u32,
    // 0 for 12 hours, 1 for 24
    pub mode: u32,
}
