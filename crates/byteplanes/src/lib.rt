// The add call for the eight-bit panel of document 02, section 4: planes of bytes, depth 8, no size with a side of 64.
// Coefficients in column order, and in row order (`_rows`); one lane, and four (`_lanes`). A coefficient out of range is refused.
#![tactic(auto)]

ghost use Rattle.std.specs.Prelude.{◌≡◌};
ghost use Rattle.answers.specs.declared.Answer.{Answer};
ghost use Rattle.pixels.specs.Calls.{strict, strict_rows};
ghost use Rattle.byteplanes.specs.Bytes.{bytes_of};

pub mod judge;
pub mod block_rows; // Rows of bytes that gain their residuals.
pub mod calls;

use answers::Answer;

// The residual added into a picture of bytes at its stride; or a refusal, and nothing written.
pub fn inv_txfm_add_bytes(
    dst: &mut [u8],
    stride: usize,
    coeff: &[i32],
    txtp: usize,
    tx: usize,
    bd: u32,
) -> Answer
    ensures { (result, dst.new) ≡ bytes_of strict dst.old stride coeff.now txtp tx bd }
{
    calls::add(dst, stride, coeff, txtp, tx, bd, pixels::form::STRICT)
}

// The same, four lanes at a time.
pub fn inv_txfm_add_bytes_lanes(
    dst: &mut [u8],
    stride: usize,
    coeff: &[i32],
    txtp: usize,
    tx: usize,
    bd: u32,
) -> Answer
    ensures { (result, dst.new) ≡ bytes_of strict dst.old stride coeff.now txtp tx bd }
{
    calls::add(dst, stride, coeff, txtp, tx, bd, pixels::form::STRICT_LANES)
}

// The same, with the coefficients in row order.
pub fn inv_txfm_add_rows_bytes(
    dst: &mut [u8],
    stride: usize,
    coeff: &[i32],
    txtp: usize,
    tx: usize,
    bd: u32,
) -> Answer
    ensures { (result, dst.new) ≡ bytes_of strict_rows dst.old stride coeff.now txtp tx bd }
{
    calls::add(dst, stride, coeff, txtp, tx, bd, pixels::form::STRICT_ROWS)
}

// And four lanes at a time.
pub fn inv_txfm_add_rows_bytes_lanes(
    dst: &mut [u8],
    stride: usize,
    coeff: &[i32],
    txtp: usize,
    tx: usize,
    bd: u32,
) -> Answer
    ensures { (result, dst.new) ≡ bytes_of strict_rows dst.old stride coeff.now txtp tx bd }
{
    calls::add(
        dst,
        stride,
        coeff,
        txtp,
        tx,
        bd,
        pixels::form::STRICT_ROWS_LANES,
    )
}
