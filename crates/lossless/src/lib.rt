// The lossless step of document 01 and its undo: a 4x4 block of a plane gains the residuals of sixteen levels, with no clamp.
// Document 02, section 2: the first width samples of each line are visible, and a block lies among those.
#![tactic(auto)]

ghost use Rattle.std.specs.Prelude.{◌≡◌, map, neg_ℤ, length};
ghost use Rattle.whole.specs.Sums.{item};
ghost use Rattle.answers.specs.Reasons.{verdict_of};
ghost use Rattle.wht.specs.Calls.{Sixteen};
ghost use Rattle.lossless.specs.Step.{attempt, gain_of, step_of, undo_of};
ghost use Rattle.lossless.specs.Bounds.{change};

use answers::{Answer, Reason};

// The refusals 1, 5, 6 and 7, by the arguments alone.
pub mod front;
// The refusals 8 and 10, by the block's samples, and the samples' gain.
pub mod block;

// Each of sixteen numbers with the other sign.
fn negate(l: &mut [i32])
    requires { Sixteen 1048576 l.old }
    ensures { l.new ≡ map neg_ℤ l.old }
{
    for z in l.iter_mut() {
        *z = -*z;
    }
}

// What the block's samples gain: the residuals of the levels, in an undo with the other sign.
// Kept: `undo` is a flag, as in the definition `change`; closures for the one change of sign would be longer.
pub fn changes(level: &[i32], undo: bool, out: &mut [i32])
    requires { Sixteen 262144 level.now × (length out.old ≡ 16) }
    ensures { out.new ≡ change undo level.now }
{
    wht::residuals(level, out);
    if undo {
        negate(out);
    }
}

// A step, or an undo.
fn step_or_undo(
    depth: u32,
    plane: &mut [i32],
    stride: usize,
    width: usize,
    row: usize,
    column: usize,
    level: &[i32],
    undo: bool,
) -> Result<(), Reason>
    ensures { (verdict_of result, plane.new) ≡ gain_of plane.old (attempt depth stride width row column level.now) (item (change undo level.now)) }
{
    front::judge(plane.len(), depth, stride, width, row, column, level)?;
    let mut gains = [0i32; 16];
    changes(level, undo, &mut gains);
    block::gain(plane, &gains, depth, row * stride + column, stride)
}

// Each sample of the block gains its residual.
pub fn lossless_step(
    depth: u32,
    plane: &mut [i32],
    stride: usize,
    width: usize,
    row: usize,
    column: usize,
    level: &[i32],
) -> Answer
    ensures { (result, plane.new) ≡ step_of plane.old (attempt depth stride width row column level.now) }
{
    Answer::from(step_or_undo(depth, plane, stride, width, row, column, level, false))
}

// Each sample of the block loses its residual.
pub fn lossless_undo(
    depth: u32,
    plane: &mut [i32],
    stride: usize,
    width: usize,
    row: usize,
    column: usize,
    level: &[i32],
) -> Answer
    ensures { (result, plane.new) ≡ undo_of plane.old (attempt depth stride width row column level.now) }
{
    Answer::from(step_or_undo(depth, plane, stride, width, row, column, level, true))
}
