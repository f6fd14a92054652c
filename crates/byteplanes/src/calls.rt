// The call, in every form.
ghost use Rattle.std.specs.Prelude.{◌≡◌};
ghost use Rattle.answers.specs.declared.Answer.{Answer};
ghost use Rattle.pixels.specs.declared.form.Form.{Form};
ghost use Rattle.pixels.specs.Calls.{reading_of};
ghost use Rattle.byteplanes.specs.Bytes.{bytes_of};

use answers::Answer;
use pixels::form::Form;

// The residual added into a picture of bytes at its stride; or a refusal, and nothing written.
pub fn add(
    dst: &mut [u8],
    stride: usize,
    coeff: &[i32],
    txtp: usize,
    tx: usize,
    bd: u32,
    form: Form,
) -> Answer
    ensures { (result, dst.new) ≡ bytes_of (reading_of form) dst.old stride coeff.now txtp tx bd }
{
    match crate::judge::judge(dst.len(), stride, coeff, txtp, tx, bd, form.strict) {
        Err(reason) => Answer::from(reason),
        Ok(()) => {
            let mut work = [0i32; 1024];
            pixels::calls::residuals(&mut work, coeff, txtp, tx, bd, form.lanes, form.rowwise);
            let s = tables::size::size_of(tx);
            crate::block_rows::add_rows(dst, stride, &work, s.w, s.h);
            answers::finished()
        }
    }
}
