// The DCT of 4, 8 and 16 numbers, of sixteen lines side by side, at 16 bits: number j of line l stands at place j * d + l of w, result m of line l at m * 16 + l of out.
ghost use Rattle.std.specs.Prelude.{◌+◌, ◌*◌, ◌-◌, ◌≤◌, ◌<◌, length};
ghost use Rattle.tables.specs.Dct.{dct4, dct8, dct16};
ghost use Rattle.tables.specs.Half.{half16};
ghost use Rattle.wide_rows.specs.Lines.{Transformed, Doubled, Begun, Room, Silent};

use tables::dct::DCT16_DENSE_KERNEL;
use tables::half::{DCT8_KERNEL, DCT16_KERNEL};
use wide_rows::rows::{row_of, row_of_two};

// The 4-point DCT: row j, column m is the weight of input j in output m.
const DCT4_DENSE: [i8; 16] = [
    64, 64, 64, 64, 83, 35, -35, -83, 64, -64, -64, 64, 35, -83, 83, -35,
];

// Results of the first four inputs, d apart, whose weights are those of the first four rows of t, a table of rows of H + H.
pub fn begin<const H: usize>(w: &[i16], d: usize, t: &[i8], out: &mut [i32])
    requires { (H ≤ 16) × (15 + 3 * d < length w.now) × (4 * (H + H) ≤ length t.now) × ((H + H) * 16 ≤ length out.old) }
    ensures { Begun (H + H) d H H t.now w.now out.old out.new }
{
    for m in 0..H {
        let z = H + H - 1 - m;
        row_of_two(out, w, d, t, H + H, m, z);
    }
}

// The odd inputs join: rows A to Z - 1 of the even half, with b the place of the first of N odd inputs and t the weights.
fn grow<const N: usize, const A: usize, const Z: usize>(
    w: &[i16],
    b: usize,
    t: &[i8],
    out: &mut [i32],
)
    requires { (A ≤ Z) × (Z ≤ N) × (N ≤ 8) × (b + 15 + (N - 1) * (b + b) < length w.now) × (N * N ≤ length t.now) × ((N + N) * 16 ≤ length out.old) × Room 2 A Z out.old }
    ensures { Doubled N A Z b t.now w.now out.old out.new }
{
    for m in A..Z {
        let z = N + N - 1 - m;
        row_of::<N>(out, w, b, t, m, z);
    }
}

// Four inputs d apart.
pub fn dct4(w: &[i16], d: usize, out: &mut [i32])
    requires { (15 + 3 * d < length w.now) × (64 ≤ length out.old) }
    ensures { Transformed 4 dct4 d w.now out.new × Room 1 0 4 out.new }
{
    let t = DCT4_DENSE;
    begin::<2>(w, d, &t, out);
}

// Eight inputs d apart.
pub fn dct8(w: &[i16], d: usize, out: &mut [i32])
    requires { (15 + 7 * d < length w.now) × (128 ≤ length out.old) }
    ensures { Transformed 8 dct8 d w.now out.new × Room 2 0 8 out.new }
{
    dct4(w, d + d, out);
    let t = DCT8_KERNEL;
    grow::<4, 0, 4>(w, d, &t, out);
}

// The odd inputs join: rows 0 to 7 of the even half, with b the place of the first odd input.
// Kept: two calls of four rows, in a function of their own. Otherwise the weights aren't literals: 16x16 takes 12,970 instructions, not 7,466.
fn grow16(w: &[i16], b: usize, out: &mut [i32])
    requires { (b + 15 + 7 * (b + b) < length w.now) × (256 ≤ length out.old) × Room 2 0 8 out.old }
    ensures { Doubled 8 0 8 b half16 w.now out.old out.new }
{
    let t = DCT16_KERNEL;
    grow::<8, 0, 4>(w, b, &t, out);
    grow::<8, 4, 8>(w, b, &t, out);
}

// Sixteen inputs d apart.
pub fn dct16(w: &[i16], d: usize, out: &mut [i32])
    requires { (15 + 15 * d < length w.now) × (256 ≤ length out.old) }
    ensures { Transformed 16 dct16 d w.now out.new × Room 3 0 16 out.new }
{
    dct8(w, d + d, out);
    grow16(w, d, out);
}

// Sixteen inputs, of which the first four count.
pub fn first16(w: &[i16], out: &mut [i32])
    requires { (63 < length w.now) × (256 ≤ length out.old) × Silent 16 4 w.now }
    ensures { Transformed 16 dct16 16 w.now out.new × Room 1 0 16 out.new }
{
    let t = DCT16_DENSE_KERNEL;
    begin::<8>(w, 16, &t, out);
}
