// The refusals 1, 5, 6 and 7, by the arguments alone.
ghost use Rattle.std.specs.Prelude.{◌≡◌, ◌≤◌};
ghost use Rattle.answers.specs.Reasons.{verdict_of};
ghost use Rattle.lossless.specs.Step.{place, attempt, fits, front};

use answers::{Reason, Slice};
use ranges::between;

// Whether the block lies in the visible part of a plane of n samples. The tests before the sum keep it from wrapping.
pub fn block_fits(n: usize, stride: usize, width: usize, row: usize, column: usize) -> bool
    requires { (4 ≤ width) × (width ≤ stride) × (stride ≤ 65536) }
    ensures { result ≡ fits (place 0 stride width row column) n }
{
    if 65535 < row {
        return false;
    }
    if width - 4 < column {
        return false;
    }
    (row + 3) * stride + column + 4 <= n
}

// The first of the refusals 1, 5, 6 and 7 that applies to a plane of n samples.
#[tactic(auto, unfolding(crate::specs::Step::front))]
pub fn judge(
    n: usize,
    depth: u32,
    stride: usize,
    width: usize,
    row: usize,
    column: usize,
    level: &[i32],
) -> Result<(), Reason>
    ensures { verdict_of result ≡ front n (attempt depth stride width row column level.now) }
{
    if !between(depth as usize, 8, 12) {
        return Err(Reason::Depth);
    }
    if !between(stride, 4, 65536) {
        return Err(Reason::Stride);
    }
    if !between(width, 4, stride) {
        return Err(Reason::Stride);
    }
    if level.len() != 16 {
        return Err(Reason::Length(Slice::Read));
    }
    if !block_fits(n, stride, width, row, column) {
        return Err(Reason::Length(Slice::Picture));
    }
    match wht::find_bad(level, -262144, 262144) {
        Some(place) => Err(Reason::Level(Slice::Read, place)),
        None => Ok(()),
    }
}
