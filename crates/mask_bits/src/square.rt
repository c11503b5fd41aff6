//! A square of bits, turned.

ghost use Rattle.std.specs.Prelude.{ℕ, ◌<◌, ◌^◌, slice_index};
ghost use Rattle.mask_bits.specs.Square.{IsTransposed, IsMask, IsExchanged};

/// Turns rows into columns: bit j of row i becomes bit i of row j.
pub fn transpose_64(rows: &mut [u64; 64])
    ensures { IsTransposed rows.old rows.new }
{
    // By ever smaller blocks (Warren, "Hacker's Delight", 2nd edition 2013, section 7-3).
    exchange(rows, 5, 0x0000_0000_ffff_ffff);
    exchange(rows, 4, 0x0000_ffff_0000_ffff);
    exchange(rows, 3, 0x00ff_00ff_00ff_00ff);
    exchange(rows, 2, 0x0f0f_0f0f_0f0f_0f0f);
    exchange(rows, 1, 0x3333_3333_3333_3333);
    exchange(rows, 0, 0x5555_5555_5555_5555);
}

// In each block of twice `2 ^ digit` rows and places, the two quarters off the diagonal change places.
fn exchange(rows: &mut [u64; 64], digit: u32, mask: u64)
    requires digit { digit < 6 }
    requires mask { IsMask (2 ^ digit) mask }
    ensures { (i : ℕ) → i < 64 → IsExchanged (2 ^ digit) rows.old i (slice_index rows.new i) }
{
    let old = *rows;
    for i in 0..64 {
        rows[i] = exchanged_row(&old, i, digit, mask);
    }
}

fn exchanged_row(rows: &[u64; 64], i: usize, digit: u32, mask: u64) -> u64
    requires row { i < 64 }
    requires digit { digit < 6 }
    requires mask { IsMask (2 ^ digit) mask }
    ensures { IsExchanged (2 ^ digit) rows.now i result }
{
    let width = 1 << digit;
    if (i >> digit) % 2 == 0 {
        (rows[i] & mask) | ((rows[i + width] & mask) << width)
    } else {
        ((rows[i - width] >> width) & mask) | (rows[i] & !mask)
    }
}
