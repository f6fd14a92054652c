// The lossless step and its undo for the eight-bit panel of document 02, section 4: planes of bytes, depth 8.
#![tactic(auto)]

ghost use Rattle.std.specs.Prelude.{◌≡◌};
ghost use Rattle.whole.specs.Sums.{item};
ghost use Rattle.answers.specs.Reasons.{verdict_of};
ghost use Rattle.lossless.specs.Step.{attempt, gain_of};
ghost use Rattle.lossless.specs.Bounds.{change};
ghost use Rattle.bytesteps.specs.Steps.{on_bytes, step_bytes, undo_bytes};

use answers::{Answer, Reason};

// Refusal 10, by the block's bytes, and the bytes' gain.
pub mod block;

// A step, or an undo.
// Kept: `lossless::step_or_undo` is its like for samples. They differ in refusal 1 and in their contracts (`on_bytes`, `gain_of`); one over both kinds of plane would be longer.
fn step_or_undo(
    depth: u32,
    plane: &mut [u8],
    stride: usize,
    width: usize,
    row: usize,
    column: usize,
    level: &[i32],
    undo: bool,
) -> Result<(), Reason>
    ensures { (verdict_of result, plane.new) ≡ on_bytes (λ p s. gain_of p s (item (change undo level.now))) plane.old (attempt depth stride width row column level.now) }
{
    let deep = depth != 8;
    if deep {
        return Err(Reason::Depth);
    }
    lossless::front::judge(plane.len(), depth, stride, width, row, column, level)?;
    let mut gains = [0i32; 16];
    lossless::changes(level, undo, &mut gains);
    block::gain(plane, &gains, row * stride + column, stride)
}

// Each byte of the block gains its residual, with no clamp.
pub fn lossless_step_bytes(
    depth: u32,
    plane: &mut [u8],
    stride: usize,
    width: usize,
    row: usize,
    column: usize,
    level: &[i32],
) -> Answer
    ensures { (result, plane.new) ≡ step_bytes plane.old (attempt depth stride width row column level.now) }
{
    Answer::from(step_or_undo(depth, plane, stride, width, row, column, level, false))
}

// Each byte of the block loses its residual.
pub fn lossless_undo_bytes(
    depth: u32,
    plane: &mut [u8],
    stride: usize,
    width: usize,
    row: usize,
    column: usize,
    level: &[i32],
) -> Answer
    ensures { (result, plane.new) ≡ undo_bytes plane.old (attempt depth stride width row column level.now) }
{
    Answer::from(step_or_undo(depth, plane, stride, width, row, column, level, true))
}
