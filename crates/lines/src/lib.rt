// The two lines of the bench, byte for byte: what a print record prints, and what is printed of a fault.
#![tactic(auto)]

mod origin;
mod writing;

ghost use Rattle.std.specs.Prelude.{◌≡◌};
ghost use Rattle.lines.specs.Lines.{record_text, fault_text, record_line, fault_line};

use arrayvec::ArrayString;
use itoa::Buffer;
pub use origin::Origin;
use refusals::Refusal;
use writing::{copy_into, push_hexadecimal};

// The number, a space, the registers in hexadecimal and a line feed, at the front of `out`; answers the line's length.
// A buffer under 64 bytes is refused and left as it was.
pub fn record_line(number: u64, registers: &[u8; 16], out: &mut [u8]) -> Result<usize, Refusal>
    ensures { (result, out.new) ≡ record_line number registers.now out.old }
{
    copy_into(&record_text(number, registers), out)
}

// `fault`, the refusal's number, `at`, the place, `in`, who refused, and a line feed, likewise.
// It takes any number, since makers may have refusals of their own.
pub fn fault_line(number: u64, place: u64, origin: Origin, out: &mut [u8]) -> Result<usize, Refusal>
    ensures { (result, out.new) ≡ fault_line number place origin out.old }
{
    copy_into(&fault_text(number, place, origin), out)
}

// The texts are pushed and not written by `write!`: its contract allows a failure where there is room.
fn record_text(number: u64, registers: &[u8; 16]) -> ArrayString<64>
    ensures { result.bytes ≡ record_text number registers.now }
{
    let mut line = ArrayString::new();
    line.push_str(Buffer::new().format(number));
    line.push_str(" ");
    push_hexadecimal(&mut line, registers);
    line.push_str("\n");
    line
}

fn fault_text(number: u64, place: u64, origin: Origin) -> ArrayString<64>
    ensures { result.bytes ≡ fault_text number place origin }
{
    let mut line = ArrayString::new();
    line.push_str("fault ");
    line.push_str(Buffer::new().format(number));
    line.push_str(" at ");
    line.push_str(Buffer::new().format(place));
    line.push_str(" in ");
    line.push_str(origin.word());
    line.push_str("\n");
    line
}
