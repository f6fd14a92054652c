// Rows of bytes that gain their residuals in place.
ghost use Rattle.std.specs.Prelude.{◌≡◌, cond, ℕ, ◌+◌, ◌*◌, ◌/◌, ◌%◌, ◌≤◌, ◌<◌, pos, nat_abs, length, get_or};
ghost use Rattle.whole.specs.Sums.{tab, Within};
ghost use Rattle.whole.specs.Grid.{grid_of, in_block, Bounded};
ghost use Rattle.byteplanes.specs.Bytes.{byte_of};

// A byte with its residual, clamped.
fn gained(p: u8, e: i32) -> u8
    requires { nat_abs e ≤ 4096 }
    ensures { result ≡ byte_of p e }
{
    let z = pixels::block_rows::pixel(octets::number(p), e, 255);
    octets::byte(z)
}

// Each byte of a row gains its residual.
// Kept: beside gain_row of `pixels`, since bytes have a definition of their own and no residual serves two of them.
fn gain_row(row: &mut [u8], e: &[i32])
    requires { Within 4096 e.now × (length row.old ≤ length e.now) }
    ensures { row.new ≡ tab (length row.old) (λ x. byte_of (get_or row.old x 0) (get_or e.now x (pos 0))) }
{
    for x in 0..row.len() {
        row[x] = gained(row[x], e[x]);
    }
}

// Every row of a block of w by h in a plane of bytes gains its residuals, which stand in rows of w.
pub fn add_rows(dst: &mut [u8], stride: usize, work: &[i32], w: usize, h: usize)
    requires w_nonzero { (0 < w) × (w ≤ stride) × ((r : ℕ) → r < h → r * stride + w ≤ length dst.old) }
    requires w_in_bounds { (h * w ≤ length work.now) × Bounded 4096 w h (grid_of w work.now) }
    ensures { dst.new ≡ tab (length dst.old) (λ i. cond (in_block stride w h i) (byte_of (get_or dst.old i 0) (grid_of w work.now (i / stride) (i % stride))) (get_or dst.old i 0)) }
{
    for y in 0..h {
        let a = y * stride;
        let t = y * w;
        gain_row(&mut dst[a..a + w], &work[t..t + w]);
    }
}
