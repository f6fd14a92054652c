// The DCT of 32 numbers, of sixteen lines side by side, at 16 bits: number j of line l stands at place j * d + l of w, result m of line l at m * 16 + l of out.
ghost use Rattle.std.specs.Prelude.{◌+◌, ◌*◌, ◌≤◌, ◌<◌, length};
ghost use Rattle.tables.specs.Dct.{dct32};
ghost use Rattle.wide_rows.specs.Lines.{Transformed, Doubled, Room, Silent};

use crate::short::{begin, dct16};
use tables::dct::DCT32_DENSE_KERNEL;
use tables::half::DCT32_KERNEL;
use wide_rows::rows::{half_of_sixteen, row_of_sixteen};

// The odd inputs join: rows A to Z - 1 of the even half, with b the place of the first of sixteen odd inputs and t the weights.
fn grow<const A: usize, const Z: usize>(w: &[i16], b: usize, t: &[i8], out: &mut [i32])
    requires { (A ≤ Z) × (Z ≤ 16) × (b + 15 + 15 * (b + b) < length w.now) × (256 ≤ length t.now) × (512 ≤ length out.old) × Room 3 A Z out.old }
    ensures { Doubled 16 A Z b t.now w.now out.old out.new }
{
    for m in A..Z {
        let z = 31 - m;
        let p = half_of_sixteen(w, b, t, m);
        row_of_sixteen(out, p, w, b, t, m, z);
    }
}

// Thirty-two inputs d apart.
// Kept: eight calls of two rows. A loop of four isn't unrolled, and then the weights aren't literals: 32x32 takes 85,368 instructions, not 42,824.
pub fn dct32(w: &[i16], d: usize, out: &mut [i32])
    requires { (15 + 31 * d < length w.now) × (512 ≤ length out.old) }
    ensures { Transformed 32 dct32 d w.now out.new × Room 4 0 32 out.new }
{
    dct16(w, d + d, out);
    let t = DCT32_KERNEL;
    grow::<0, 2>(w, d, &t, out);
    grow::<2, 4>(w, d, &t, out);
    grow::<4, 6>(w, d, &t, out);
    grow::<6, 8>(w, d, &t, out);
    grow::<8, 10>(w, d, &t, out);
    grow::<10, 12>(w, d, &t, out);
    grow::<12, 14>(w, d, &t, out);
    grow::<14, 16>(w, d, &t, out);
}

// Thirty-two inputs, of which the first four count.
pub fn first32(w: &[i16], out: &mut [i32])
    requires { (63 < length w.now) × (512 ≤ length out.old) × Silent 32 4 w.now }
    ensures { Transformed 32 dct32 16 w.now out.new × Room 1 0 32 out.new }
{
    let t = DCT32_DENSE_KERNEL;
    begin::<16>(w, 16, &t, out);
}
