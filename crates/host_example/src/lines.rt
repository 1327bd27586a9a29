// How answers are printed.
use refusals::Refusal;
use rx5c348a::part::Rx5c348a;
use rx5c348a::pins::Level;
use std::io;

// An answer as it is shown, or its refusal.
fn print_answer<T, F: FnOnce(T) -> io::Result<()>>(
    rt: &HostRuntime,
    answer: Result<T, Refusal>,
    show: F,
) -> io::Result<()>
    requires { F.IsAlwaysCallable show }
{
    match answer {
        Ok(given) => show(given),
        Err(why) => println!(rt; "{why}"),
    }
}

pub(crate) fn print_byte(rt: &HostRuntime, answer: Result<u8, Refusal>) -> io::Result<()> {
    print_answer(rt, answer, |byte| println!(rt; "{byte:02X}h"))
}

pub(crate) fn print_accepted(rt: &HostRuntime, answer: Result<(), Refusal>) -> io::Result<()> {
    print_answer(rt, answer, |()| println!(rt; "accepted"))
}

// The cells are packed decimal, so their hexadecimal digits are the digits of the time.
fn print_digits(rt: &HostRuntime, time: [u8; 3]) -> io::Result<()> {
    let [hour, minute, second] = time;
    println!(rt; "{hour:02X}:{minute:02X}:{second:02X}")
}

pub(crate) fn print_time(rt: &HostRuntime, answer: Result<[u8; 3], Refusal>) -> io::Result<()> {
    print_answer(rt, answer, |time| print_digits(rt, time))
}

pub(crate) fn print_interrupt(rt: &HostRuntime, part: &Rx5c348a) -> io::Result<()> {
    match part.answer().intr {
        Level::Low => println!(rt; "/INTR is low"),
        Level::High => println!(rt; "/INTR is high"),
    }
}
