// The fast form of the strict calls: the same promises as the other forms of `pixels`. A block at depth 8 of two DCTs goes through the narrow passes,
// any other through the better of the other forms.
#![tactic(auto)]

ghost use Rattle.std.specs.Prelude.{◌≡◌};
ghost use Rattle.answers.specs.declared.Answer.{Answer};
ghost use Rattle.pixels.specs.Calls.{add_of, float_of, Exact, strict, strict_rows};

pub mod add; // The add calls.
pub mod filling; // Blocks of pixels as f32.
pub mod recon; // The float calls.

use answers::Answer;

// The residual added into a picture at its stride; or a refusal, and nothing written.
pub fn inv_txfm_add_fast(
    dst: &mut [i32],
    stride: usize,
    coeff: &[i32],
    txtp: usize,
    tx: usize,
    bd: u32,
) -> Answer
    ensures { (result, dst.new) ≡ add_of strict dst.old stride coeff.now txtp tx bd }
{
    add::add(dst, stride, coeff, txtp, tx, bd, pixels::form::STRICT)
}

// The same, with the coefficients in row order.
pub fn inv_txfm_add_rows_fast(
    dst: &mut [i32],
    stride: usize,
    coeff: &[i32],
    txtp: usize,
    tx: usize,
    bd: u32,
) -> Answer
    ensures { (result, dst.new) ≡ add_of strict_rows dst.old stride coeff.now txtp tx bd }
{
    add::add(dst, stride, coeff, txtp, tx, bd, pixels::form::STRICT_ROWS)
}

// Prediction plus residual as f32, row after row; or a refusal, and nothing written.
pub fn inv_txfm_recon_f32_fast(
    out: &mut [f32],
    coeff: &[i32],
    txtp: usize,
    tx: usize,
    bd: u32,
    pred: &[i32],
) -> Answer
    ensures out_after { (result, out.new) ≡ float_of strict out.old coeff.now txtp tx bd pred.now }
    ensures exact { result.number ≡ 0 → Exact strict out.new coeff.now txtp tx bd pred.now }
{
    recon::recon(out, coeff, txtp, tx, bd, pred, pixels::form::STRICT)
}

// The same, with the coefficients in row order.
pub fn inv_txfm_recon_f32_rows_fast(
    out: &mut [f32],
    coeff: &[i32],
    txtp: usize,
    tx: usize,
    bd: u32,
    pred: &[i32],
) -> Answer
    ensures out_after { (result, out.new) ≡ float_of strict_rows out.old coeff.now txtp tx bd pred.now }
    ensures exact { result.number ≡ 0 → Exact strict_rows out.new coeff.now txtp tx bd pred.now }
{
    recon::recon(out, coeff, txtp, tx, bd, pred, pixels::form::STRICT_ROWS)
}
