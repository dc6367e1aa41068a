// The rows of the walk, written into lent bytes.
ghost use Rattle.std.specs.Prelude.{◌≡◌, ◌+◌, ◌≤◌, length};
ghost use Rattle.walk.specs.Call.{row_bytes};
ghost use Rattle.walk.specs.Parts.{over_at};

// Bytes, over those of a buffer from a place on.
fn put(out: &mut [u8], at: usize, bytes: &[u8])
    requires { at + length bytes.now ≤ length out.old }
    ensures { out.new ≡ over_at at bytes.now out.old }
{
    out[at..at + bytes.len()].copy_from_slice(bytes);
}

// A row of 12 bytes: price u32, area of X u32, module taken u16, way u16.
pub fn put_row(out: &mut [u8], at: usize, row: crate::Row)
    requires { at + 12 ≤ length out.old }
    ensures { out.new ≡ over_at at (row_bytes row) out.old }
{
    put(&mut *out, at, &row.price.to_le_bytes());
    put(&mut *out, at + 4, &row.area.to_le_bytes());
    put(&mut *out, at + 8, &row.turn.taken().to_le_bytes());
    put(&mut *out, at + 10, &row.turn.way().to_le_bytes());
}
