// The float call of the fast form.
ghost use Rattle.std.specs.Prelude.{◌≡◌};
ghost use Rattle.answers.specs.declared.Answer.{Answer};
ghost use Rattle.pixels.specs.declared.form.Form.{Form};
ghost use Rattle.pixels.specs.Calls.{float_of, Exact, reading_of};
ghost use Rattle.quick.specs.Quick.{Quick};

use answers::Answer;
use pixels::form::Form;

// Prediction plus residual of a block that the narrow passes take, as f32, row after row; or a refusal, and nothing written.
fn recon_quick(
    out: &mut [f32],
    coeff: &[i32],
    txtp: usize,
    tx: usize,
    bd: u32,
    pred: &[i32],
    form: Form,
) -> Answer
    requires { Quick txtp tx bd }
    ensures out_after { (result, out.new) ≡ float_of (reading_of form) out.old coeff.now txtp tx bd pred.now }
    ensures exact { result.number ≡ 0 → Exact (reading_of form) out.new coeff.now txtp tx bd pred.now }
{
    match verdicts::judge::judge_float(out.len(), coeff, txtp, tx, bd, pred, form.strict) {
        Err(reason) => Answer::from(reason),
        Ok(()) => {
            let s = tables::size::size_of(tx);
            crate::filling::fill_block(out, pred, coeff, s.w, s.h, s.first, s.second, form.rowwise);
            answers::finished()
        }
    }
}

// Prediction plus residual of any block as f32, row after row; or a refusal, and nothing written.
pub fn recon(
    out: &mut [f32],
    coeff: &[i32],
    txtp: usize,
    tx: usize,
    bd: u32,
    pred: &[i32],
    form: Form,
) -> Answer
    ensures out_after { (result, out.new) ≡ float_of (reading_of form) out.old coeff.now txtp tx bd pred.now }
    ensures exact { result.number ≡ 0 → Exact (reading_of form) out.new coeff.now txtp tx bd pred.now }
{
    if crate::add::is_quick(txtp, tx, bd) {
        recon_quick(out, coeff, txtp, tx, bd, pred, form)
    } else {
        let other = crate::add::better(form, txtp, tx);
        pixels::calls::recon(out, coeff, txtp, tx, bd, pred, other)
    }
}
