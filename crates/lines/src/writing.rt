// How bytes are added to a line, and how a line leaves.
ghost use Rattle.std.specs.Prelude.{◌≡◌, ◌+◌, ◌<◌, ◌≤◌, ◌++◌};
ghost use Rattle.std.specs.List.{flat_map};
ghost use Rattle.arrayvec.specs.ArrayString.{array_string_len};
ghost use Rattle.lines.specs.Words.{hex_digit, hex_byte};
ghost use Rattle.lines.specs.Lines.{line_into};

use arrayvec::ArrayString;
use refusals::Refusal;

// Each byte as two digits.
pub(crate) fn push_hexadecimal(line: &mut ArrayString<64>, bytes: &[u8; 16])
    requires { array_string_len line.old + 32 ≤ 64 }
    ensures text { line.new.bytes ≡ line.old.bytes ++ flat_map hex_byte bytes.now }
    ensures len { array_string_len line.new ≡ array_string_len line.old + 32 }
{
    for byte in bytes {
        line.push(hexadecimal_digit(byte / 16));
        line.push(hexadecimal_digit(byte % 16));
    }
}

// Capitals. By hand, since the library's writer of capitals needs a heap.
fn hexadecimal_digit(digit: u8) -> char
    requires { digit < 16 }
    ensures { result ≡ hex_digit digit }
{
    char::from(if digit < 10 {
        b'0' + digit
    } else {
        b'A' + (digit - 10)
    })
}

// To the front of `out`, if it has room for any line.
pub(crate) fn copy_into(line: &ArrayString<64>, out: &mut [u8]) -> Result<usize, Refusal>
    ensures { (result, out.new) ≡ line_into line.now.bytes out.old }
{
    if out.len() < 64 {
        return Err(Refusal::ShortBuffer);
    }
    out[..line.len()].copy_from_slice(line.as_bytes());
    Ok(line.len())
}
