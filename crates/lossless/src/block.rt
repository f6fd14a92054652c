// The refusals 8 and 10, by the block's samples, and the samples' gain. Four rows of four samples, the rows stride apart, the first sample at start.
ghost use Rattle.std.specs.Prelude.{◌≡◌, ◌+◌, ◌*◌, ◌^◌, ◌≤◌, ◌<◌, pos, length};
ghost use Rattle.whole.specs.Sums.{item};
ghost use Rattle.answers.specs.Answers.{ends};
ghost use Rattle.answers.specs.Reasons.{verdict_of};
ghost use Rattle.whole.specs.Numbers.{in_range};
ghost use Rattle.whole.specs.Search.{cell_at};
ghost use Rattle.ranges.specs.Cells.{Finds};
ghost use Rattle.wht.specs.Calls.{Sixteen};
ghost use Rattle.lossless.specs.Gains.{gained, later_ok, samples};
ghost use Rattle.lossless.specs.Step.{sample};
ghost use Rattle.lossless.specs.Bounds.{Addable};

use answers::Reason;

// The index of the block's sample k.
pub fn spot_of(start: usize, stride: usize, k: usize) -> usize
    requires { (k < 16) × (start + 3 * stride + 4 < 2 ^ 64) }
    ensures { result ≡ cell_at start stride 4 k }
{
    start + k / 4 * stride + k % 4
}

// The number of the first sample that would leave 0 .. hi.
fn first_leaving(
    plane: &[i32],
    gains: &[i32],
    start: usize,
    stride: usize,
    hi: i32,
) -> Option<usize>
    requires { Addable plane.now start stride gains.now }
    ensures { Finds (later_ok (in_range (pos 0) hi) (cell_at start stride 4) plane.now (item gains.now)) 16 result }
{
    let mut found = None;
    'rows: for r in 0..4 {
        let base = start + r * stride;
        for x in 0..4 {
            let z = plane[base + x] + gains[r * 4 + x];
            if !ranges::inside(z, 0, hi) {
                found = Some(r * 4 + x);
                break 'rows;
            }
        }
    }
    found
}

// The refusals 8 and 10.
pub fn judge(
    plane: &[i32],
    gains: &[i32],
    depth: u32,
    start: usize,
    stride: usize,
) -> Result<(), Reason>
    requires { (depth ≤ 12) × (start + 3 * stride + 4 ≤ length plane.now) × Sixteen 1048576 gains.now }
    ensures { verdict_of result ≡ samples (sample depth) (cell_at start stride 4) plane.now (item gains.now) }
{
    let hi = ranges::high_end(depth);
    if let Some(k) = ranges::find_outside(plane, start, stride, 4, 4, 0, hi) {
        return Err(Reason::Sample(spot_of(start, stride, k)));
    }
    match first_leaving(plane, gains, start, stride, hi) {
        Some(k) => Err(Reason::Leaving(spot_of(start, stride, k))),
        None => Ok(()),
    }
}

// Each sample of the block gains its number.
pub fn add(plane: &mut [i32], gains: &[i32], start: usize, stride: usize)
    requires { Addable plane.old start stride gains.now × (4 ≤ stride) }
    ensures { plane.new ≡ gained (cell_at start stride 4) (item gains.now) plane.old }
{
    for k in 0..16 {
        let i = spot_of(start, stride, k);
        plane[i] += gains[k];
    }
}

// The samples of the block gain their numbers, or a refusal and nothing written.
pub fn gain(
    plane: &mut [i32],
    gains: &[i32],
    depth: u32,
    start: usize,
    stride: usize,
) -> Result<(), Reason>
    requires { (depth ≤ 12) × (start + 3 * stride + 4 ≤ length plane.old) × Sixteen 1048576 gains.now × (4 ≤ stride) }
    ensures { (verdict_of result, plane.new) ≡ ends (samples (sample depth) (cell_at start stride 4) plane.old (item gains.now)) plane.old
        (gained (cell_at start stride 4) (item gains.now) plane.old) }
{
    judge(plane, gains, depth, start, stride)?;
    add(plane, gains, start, stride);
    Ok(())
}
