// The fast form of the strict calls on planes of bytes: the same promises as the other forms of `byteplanes`. A block of two DCTs goes through the narrow passes,
// any other through the better of the other forms.
#![tactic(auto)]

ghost use Rattle.std.specs.Prelude.{◌≡◌};
ghost use Rattle.answers.specs.declared.Answer.{Answer};
ghost use Rattle.pixels.specs.Calls.{strict, strict_rows};
ghost use Rattle.byteplanes.specs.Bytes.{bytes_of};

pub mod columns; // The columns of a block, whose results go straight into the plane.
pub mod blocks; // A whole block.
pub mod calls; // The call, in either order.

use answers::Answer;

// The residual added into a picture of bytes at its stride; or a refusal, and nothing written.
pub fn inv_txfm_add_bytes_fast(
    dst: &mut [u8],
    stride: usize,
    coeff: &[i32],
    txtp: usize,
    tx: usize,
    bd: u32,
) -> Answer
    ensures { (result, dst.new) ≡ bytes_of strict dst.old stride coeff.now txtp tx bd }
{
    calls::add(dst, stride, coeff, txtp, tx, bd, pixels::form::STRICT)
}

// The same, with the coefficients in row order.
pub fn inv_txfm_add_rows_bytes_fast(
    dst: &mut [u8],
    stride: usize,
    coeff: &[i32],
    txtp: usize,
    tx: usize,
    bd: u32,
) -> Answer
    ensures { (result, dst.new) ≡ bytes_of strict_rows dst.old stride coeff.now txtp tx bd }
{
    calls::add(dst, stride, coeff, txtp, tx, bd, pixels::form::STRICT_ROWS)
}
