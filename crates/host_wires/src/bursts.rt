// Bytes shifted in and out one after another.
ghost use Rattle.std.specs.Prelude.{◌≡◌, length};
ghost use Rattle.rx5c348a.specs.Part.{seen};
ghost use Rattle.host_wires.specs.Record.{wired};
ghost use Rattle.host_wires.specs.Shifting.{bytes_in, bytes_out};
ghost use Rattle.host_wires.specs.Laws.{AllArrive, AllStandThere};

use crate::record::PinRecord;
use rx5c348a::part::Rx5c348a;

impl PinRecord {
    // Bytes on SI, one after another.
    pub fn shift_bytes_in(&mut self, part: &mut Rx5c348a, bytes: &[u8])
        ensures value { wired self.new (seen part.new) ≡ bytes_in bytes.now (wired self.old (seen part.old)) }
        ensures law { AllArrive bytes.now (seen part.old) (seen part.new) }
    {
        for byte in bytes {
            self.shift_in(part, *byte);
        }
    }

    // Bytes from SO, until the buffer is full.
    pub fn shift_bytes_out(&mut self, part: &mut Rx5c348a, buffer: &mut [u8])
        ensures value { (buffer.new, wired self.new (seen part.new)) ≡ bytes_out (length buffer.old) (wired self.old (seen part.old)) }
        ensures law { AllStandThere (length buffer.old) (seen part.old) buffer.new (seen part.new) }
    {
        for byte in buffer.iter_mut() {
            *byte = self.shift_out(part);
        }
    }
}
