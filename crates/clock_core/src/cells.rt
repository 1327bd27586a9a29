// The cells of a core, read and written, and its sixteen registers.
ghost use Rattle.std.specs.Prelude.{◌≡◌, slice_index};
ghost use Rattle.clock_core.specs.Core.{read_cell, write_cell, registers, copied_front, look_at};
ghost use Rattle.clock_core.specs.View.{meant};

use crate::clock::ClockCore;
use refusals::Refusal;
use register_map::map::RegisterMap;
use std::array;

// Puts the sixteen registers first in a buffer; what lies behind them stays.
pub fn copy_front(sixteen: &[u8; 16], buffer: &mut [u8]) -> Result<(), Refusal>
    ensures { (result, buffer.new) ≡ copied_front sixteen.now buffer.old }
{
    if buffer.len() < 16 {
        return Err(Refusal::ShortBuffer);
    }
    buffer[..16].copy_from_slice(sixteen);
    Ok(())
}

impl<M: RegisterMap> ClockCore<M> {
    pub fn read(&self, cell: usize) -> Result<u8, Refusal>
        ensures { result ≡ read_cell M.RegisterMap.chart (meant M.RegisterMap self.now) cell }
    {
        if cell < M::CELLS {
            Ok(self.map.read(cell))
        } else {
            Err(Refusal::NoSuchCell)
        }
    }

    pub fn write(&mut self, cell: usize, byte: u8) -> Result<(), Refusal>
        ensures { (result, meant M.RegisterMap self.new) ≡ write_cell M.RegisterMap.chart (meant M.RegisterMap self.old) cell byte }
    {
        if cell >= M::CELLS {
            return Err(Refusal::NoSuchCell);
        }
        self.map.put(cell, byte);
        Ok(())
    }

    // Register 0 to 15: a cell, or 0 beyond the cells.
    fn register(&self, number: usize) -> u8
        ensures { result ≡ slice_index (registers (meant M.RegisterMap self.now)) number }
    {
        if number < M::CELLS {
            self.map.read(number)
        } else {
            0
        }
    }

    /// Registers 0 to 15: the cells, then zeros.
    pub fn registers(&self) -> [u8; 16]
        ensures { result ≡ registers (meant M.RegisterMap self.now) }
    {
        array::from_fn(
            |number| -> u8
                ensures { result ≡ slice_index (registers (meant M.RegisterMap self.entry.now)) number }
            { self.register(number) },
        )
    }

    /// Puts registers 0 to 15 first in a buffer.
    pub fn look(&self, buffer: &mut [u8]) -> Result<(), Refusal>
        ensures { (result, buffer.new) ≡ look_at (meant M.RegisterMap self.now) buffer.old }
    {
        copy_front(&self.registers(), buffer)
    }
}
