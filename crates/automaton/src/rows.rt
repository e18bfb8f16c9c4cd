//! Rows of next states that stand side by side.
ghost use Rattle.std.specs.Prelude.{◌≡◌, ℕ, ◌+◌, ◌%◌, ◌<◌, slice_index};

/// A row whose places are all raised by a number, as 16 bits count. Where nothing is to be raised the row itself is lent, and else it is written to the spare one.
#[inline(always)]
pub fn raised<'s>(row: &'s [u16; 16], raise: u16, spare: &'s mut [u16; 16]) -> &'s [u16; 16]
    ensures { (a : ℕ) → a < 16 → slice_index result.now a ≡ (raise + slice_index row.now a) % 65536 }
{
    if raise == 0 {
        return row;
    }
    raise_each(row, raise, spare);
    spare
}

// Writes the places of a row, each raised. There are always sixteen, so that some are raised at a time.
#[inline(always)]
fn raise_each(row: &[u16; 16], raise: u16, spare: &mut [u16; 16])
    ensures { (a : ℕ) → a < 16 → slice_index spare.new a ≡ (raise + slice_index row.now a) % 65536 }
{
    for place in 0..16 {
        spare[place] = raise.wrapping_add(row[place]);
    }
}
