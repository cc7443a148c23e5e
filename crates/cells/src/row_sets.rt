// Columns of marks, a mark for each row of a table: 1 where the row is in a set.
// A byte and no bool: passes join marks by `|` and `&` over whole columns, which the compiler vectorises.
ghost use Rattle.std.specs.Prelude.{◌≡◌, length};

pub const UNMARKED: u8 = 0;

pub const MARKED: u8 = 1;

// A loop and no `copy_from_slice`, for which the archive for C would need `memmove` from outside.
pub fn copy(from: &[u8], out: &mut [u8])
    requires { length from.now ≡ length out.old }
    ensures { out.new ≡ from.now }
{
    for (r, byte) in from.iter().enumerate() {
        out[r] = *byte;
    }
}
