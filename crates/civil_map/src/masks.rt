// Cells and their used bits.
ghost use Rattle.std.specs.Prelude.{◌≡◌};
ghost use Rattle.civil_map.specs.Masks.{all_masked};

// Whether no cell has an unused bit.
pub fn all_masked(used: &[u8], cells: &[u8]) -> bool
    ensures { result ≡ all_masked used.now cells.now }
{
    used.iter()
        .zip(cells)
        .all(|(mask, cell)| cell & mask == *cell)
}
