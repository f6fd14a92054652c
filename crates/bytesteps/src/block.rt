// Refusal 10, by the block's bytes, and the bytes' gain. Four rows of four bytes, the rows stride apart, the first byte at start.
ghost use Rattle.std.specs.Prelude.{◌≡◌, true, map, ℕ, ◌+◌, ◌*◌, ◌≤◌, ◌<◌, pos, nat_abs, ◌+ℤ◌, length, get_or};
ghost use Rattle.whole.specs.Sums.{item};
ghost use Rattle.answers.specs.Answers.{ends};
ghost use Rattle.answers.specs.Reasons.{verdict_of};
ghost use Rattle.whole.specs.Search.{cell_at};
ghost use Rattle.ranges.specs.Cells.{Finds};
ghost use Rattle.octets.specs.Octets.{is_byte};
ghost use Rattle.wht.specs.Calls.{Sixteen};
ghost use Rattle.lossless.specs.Gains.{gained, later_ok, samples};
ghost use Rattle.lossless.specs.Step.{sample};

use answers::Reason;

// Whether a byte with its gain is a byte again.
fn stays(x: u8, e: i32) -> bool
    requires { nat_abs e ≤ 1048576 }
    ensures { result ≡ is_byte (pos x +ℤ e) }
{
    let z = octets::number(x) + e;
    ranges::inside(z, 0, 255)
}

// The number of the first byte that would leave 0 .. 255.
fn first_leaving(plane: &[u8], gains: &[i32], start: usize, stride: usize) -> Option<usize>
    requires { (start + 3 * stride + 4 ≤ length plane.now) × Sixteen 1048576 gains.now }
    ensures value { Finds (later_ok (sample 8) (cell_at start stride 4) (map pos plane.now) (item gains.now)) 16 result }
    ensures by_index { (k : ℕ) → k < 16 → get_or plane.now (cell_at start stride 4 k) 0 ≤ 255 }
{
    for k in 0..16 {
        let i = lossless::block::spot_of(start, stride, k);
        let leaves = !stays(plane[i], gains[k]);
        if leaves {
            return Some(k);
        }
    }
    None
}

// A byte with its gain.
fn raised(x: u8, e: i32) -> u8
    requires e_value { is_byte (pos x +ℤ e) ≡ true }
    requires e_bound { nat_abs e ≤ 1048576 }
    ensures { result ≡ nat_abs (pos x +ℤ e) }
{
    let z = octets::number(x) + e;
    octets::byte(z)
}

// Each byte of the block gains its number.
fn add(plane: &mut [u8], gains: &[i32], start: usize, stride: usize)
    requires stride_in_bounds { (start + 3 * stride + 4 ≤ length plane.old) × Sixteen 1048576 gains.now × (4 ≤ stride) }
    requires by_index { (k : ℕ) → k < 16 → later_ok (sample 8) (cell_at start stride 4) (map pos plane.old) (item gains.now) k ≡ true }
    ensures { plane.new ≡ map nat_abs (gained (cell_at start stride 4) (item gains.now) (map pos plane.old)) }
{
    for k in 0..16 {
        let i = lossless::block::spot_of(start, stride, k);
        plane[i] = raised(plane[i], gains[k]);
    }
}

// The bytes of the block gain their numbers, or a refusal and nothing written.
pub fn gain(plane: &mut [u8], gains: &[i32], start: usize, stride: usize) -> Result<(), Reason>
    requires { (start + 3 * stride + 4 ≤ length plane.old) × Sixteen 1048576 gains.now × (4 ≤ stride) }
    ensures { (verdict_of result, plane.new) ≡ ends (samples (sample 8) (cell_at start stride 4) (map pos plane.old) (item gains.now)) plane.old
        (map nat_abs (gained (cell_at start stride 4) (item gains.now) (map pos plane.old))) }
{
    match first_leaving(plane, gains, start, stride) {
        Some(k) => Err(Reason::Leaving(lossless::block::spot_of(start, stride, k))),
        None => {
            add(plane, gains, start, stride);
            Ok(())
        }
    }
}
