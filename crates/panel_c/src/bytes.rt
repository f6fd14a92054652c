// The functions of `panel::bytes` as exports for C, as include/panel.h declares them. Written by tools/exports.
ghost use Rattle.std.specs.Prelude.{◌≡◌};
ghost use Rattle.answers.specs.declared.Answer.{Answer};
ghost use Rattle.pixels.specs.Calls.{strict, strict_rows};
ghost use Rattle.lossless.specs.Step.{attempt};
ghost use Rattle.byteplanes.specs.Bytes.{bytes_of};
ghost use Rattle.bytesteps.specs.Steps.{step_bytes, undo_bytes};

use answers::Answer;

// The residual added into a picture of bytes at its stride. Depth 8, no size with a side of 64.
#[unsafe(no_mangle)]
pub extern "C" fn panel_inv_txfm_add_bytes(
    dst: &mut [u8],
    stride: usize,
    coeff: &[i32],
    txtp: usize,
    tx: usize,
    bd: u32,
) -> Answer
    ensures { (result, dst.new) ≡ bytes_of strict dst.old stride coeff.now txtp tx bd }
{
    panel::bytes::panel_inv_txfm_add_bytes(dst, stride, coeff, txtp, tx, bd)
}

// The same, four lanes at a time.
#[unsafe(no_mangle)]
pub extern "C" fn panel_inv_txfm_add_bytes_lanes(
    dst: &mut [u8],
    stride: usize,
    coeff: &[i32],
    txtp: usize,
    tx: usize,
    bd: u32,
) -> Answer
    ensures { (result, dst.new) ≡ bytes_of strict dst.old stride coeff.now txtp tx bd }
{
    panel::bytes::panel_inv_txfm_add_bytes_lanes(dst, stride, coeff, txtp, tx, bd)
}

// And the fast form.
#[unsafe(no_mangle)]
pub extern "C" fn panel_inv_txfm_add_bytes_fast(
    dst: &mut [u8],
    stride: usize,
    coeff: &[i32],
    txtp: usize,
    tx: usize,
    bd: u32,
) -> Answer
    ensures { (result, dst.new) ≡ bytes_of strict dst.old stride coeff.now txtp tx bd }
{
    panel::bytes::panel_inv_txfm_add_bytes_fast(dst, stride, coeff, txtp, tx, bd)
}

// The same, with coefficients in row order.
#[unsafe(no_mangle)]
pub extern "C" fn panel_inv_txfm_add_rows_bytes(
    dst: &mut [u8],
    stride: usize,
    coeff: &[i32],
    txtp: usize,
    tx: usize,
    bd: u32,
) -> Answer
    ensures { (result, dst.new) ≡ bytes_of strict_rows dst.old stride coeff.now txtp tx bd }
{
    panel::bytes::panel_inv_txfm_add_rows_bytes(dst, stride, coeff, txtp, tx, bd)
}

// And four lanes at a time.
#[unsafe(no_mangle)]
pub extern "C" fn panel_inv_txfm_add_rows_bytes_lanes(
    dst: &mut [u8],
    stride: usize,
    coeff: &[i32],
    txtp: usize,
    tx: usize,
    bd: u32,
) -> Answer
    ensures { (result, dst.new) ≡ bytes_of strict_rows dst.old stride coeff.now txtp tx bd }
{
    panel::bytes::panel_inv_txfm_add_rows_bytes_lanes(dst, stride, coeff, txtp, tx, bd)
}

// And the fast form.
#[unsafe(no_mangle)]
pub extern "C" fn panel_inv_txfm_add_rows_bytes_fast(
    dst: &mut [u8],
    stride: usize,
    coeff: &[i32],
    txtp: usize,
    tx: usize,
    bd: u32,
) -> Answer
    ensures { (result, dst.new) ≡ bytes_of strict_rows dst.old stride coeff.now txtp tx bd }
{
    panel::bytes::panel_inv_txfm_add_rows_bytes_fast(dst, stride, coeff, txtp, tx, bd)
}

// A lossless step on a 4x4 block of a plane of bytes whose lines show width bytes. Depth 8.
#[unsafe(no_mangle)]
pub extern "C" fn panel_lossless_step_bytes(
    depth: u32,
    plane: &mut [u8],
    stride: usize,
    width: usize,
    row: usize,
    column: usize,
    level: &[i32],
) -> Answer
    ensures { (result, plane.new) ≡ step_bytes plane.old (attempt depth stride width row column level.now) }
{
    panel::bytes::panel_lossless_step_bytes(depth, plane, stride, width, row, column, level)
}

// Its undo, with the same arguments.
#[unsafe(no_mangle)]
pub extern "C" fn panel_lossless_undo_bytes(
    depth: u32,
    plane: &mut [u8],
    stride: usize,
    width: usize,
    row: usize,
    column: usize,
    level: &[i32],
) -> Answer
    ensures { (result, plane.new) ≡ undo_bytes plane.old (attempt depth stride width row column level.now) }
{
    panel::bytes::panel_lossless_undo_bytes(depth, plane, stride, width, row, column, level)
}
