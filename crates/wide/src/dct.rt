// The DCT of sixteen lines side by side, at 16 bits: number j of line l stands at place j * 16 + l of w, result m of line l at m * 16 + l of out.
ghost use Rattle.std.specs.Prelude.{◌*◌, ◌≤◌, length};
ghost use Rattle.tables.specs.Dense.{dct_table};
ghost use Rattle.wide_rows.specs.Lines.{Transformed, Room, Sized, Silent};

use crate::long::{dct32, first32};
use crate::short::{dct4, dct8, dct16, first16};

// Sixteen lines of n inputs, of which the first live ones count; the others are zero.
pub fn lines(w: &[i16], out: &mut [i32], n: usize, live: usize)
    requires { Sized n × (n * 16 ≤ length w.now) × (n * 16 ≤ length out.old) × Silent n live w.now }
    ensures { Transformed n (dct_table n) 16 w.now out.new × Room 4 0 n out.new }
{
    match n {
        4 => dct4(w, 16, out),
        8 => dct8(w, 16, out),
        16 => {
            if live <= 4 {
                first16(w, out)
            } else {
                dct16(w, 16, out)
            }
        }
        _ => {
            if live <= 4 {
                first32(w, out)
            } else {
                dct32(w, 16, out)
            }
        }
    }
}
