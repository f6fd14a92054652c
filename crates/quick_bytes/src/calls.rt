// The call of the fast form on planes of bytes: blocks of two DCTs go through the narrow passes, all others through the passes of the other forms.
ghost use Rattle.std.specs.Prelude.{◌≡◌};
ghost use Rattle.answers.specs.declared.Answer.{Answer};
ghost use Rattle.pixels.specs.declared.form.Form.{Form};
ghost use Rattle.pixels.specs.Calls.{reading_of};
ghost use Rattle.quick.specs.Quick.{Quick};
ghost use Rattle.byteplanes.specs.Bytes.{bytes_of};

use answers::Answer;
use pixels::form::Form;

// The residual of such a block added into a plane of bytes at its stride; or a refusal, and nothing written.
fn add_quick(
    dst: &mut [u8],
    stride: usize,
    coeff: &[i32],
    txtp: usize,
    tx: usize,
    bd: u32,
    form: Form,
) -> Answer
    requires { Quick txtp tx bd }
    ensures { (result, dst.new) ≡ bytes_of (reading_of form) dst.old stride coeff.now txtp tx bd }
{
    match byteplanes::judge::judge(dst.len(), stride, coeff, txtp, tx, bd, form.strict) {
        Err(reason) => Answer::from(reason),
        Ok(()) => {
            let s = tables::size::size_of(tx);
            crate::blocks::add_block(
                dst,
                stride,
                coeff,
                s.w,
                s.h,
                s.first,
                s.second,
                form.rowwise,
            );
            answers::finished()
        }
    }
}

// The residual of any block added into a plane of bytes at its stride; or a refusal, and nothing written.
pub fn add(
    dst: &mut [u8],
    stride: usize,
    coeff: &[i32],
    txtp: usize,
    tx: usize,
    bd: u32,
    form: Form,
) -> Answer
    ensures { (result, dst.new) ≡ bytes_of (reading_of form) dst.old stride coeff.now txtp tx bd }
{
    if quick::add::is_quick(txtp, tx, bd) {
        add_quick(dst, stride, coeff, txtp, tx, bd, form)
    } else {
        let other = quick::add::better(form, txtp, tx);
        byteplanes::calls::add(dst, stride, coeff, txtp, tx, bd, other)
    }
}
