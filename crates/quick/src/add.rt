// The add call of the fast form: blocks at depth 8 of two DCTs go through the narrow passes, all others through the passes of the other forms.
ghost use Rattle.std.specs.Prelude.{◌≡◌, true};
ghost use Rattle.answers.specs.declared.Answer.{Answer};
ghost use Rattle.pixels.specs.declared.form.Form.{Form};
ghost use Rattle.pixels.specs.Calls.{add_of, reading_of};
ghost use Rattle.quick.specs.Quick.{Quick};

use answers::Answer;
use pixels::form::Form;

// Whether the narrow passes take a block.
pub fn is_quick(txtp: usize, tx: usize, bd: u32) -> bool
    ensures { result ≡ true → Quick txtp tx bd }
{
    if bd != 8 {
        return false;
    }
    if 24 < tx {
        return false;
    }
    if tables::kind::hor(txtp) != 0 {
        return false;
    }
    if tables::kind::ver(txtp) != 0 {
        return false;
    }
    let s = tables::size::size_of(tx);
    if s.w < 8 {
        return false;
    }
    8 <= s.h
}

// How many lines of any other block go through a kernel together: four are fewer instructions than one where both sides are at most 8 and neither kind is DCT.
fn lanes_of(txtp: usize, tx: usize) -> usize {
    if 24 < tx || tables::kind::hor(txtp) == 0 || tables::kind::ver(txtp) == 0 {
        return 1;
    }
    let s = tables::size::size_of(tx);
    if s.w <= 8 && s.h <= 8 { 4 } else { 1 }
}

// The same form, with as many lanes.
pub fn better(form: Form, txtp: usize, tx: usize) -> Form
    ensures { reading_of result ≡ reading_of form }
{
    Form {
        lanes: lanes_of(txtp, tx),
        ..form
    }
}

// The residual of such a block added into a picture at its stride; or a refusal, and nothing written.
fn add_quick(
    dst: &mut [i32],
    stride: usize,
    coeff: &[i32],
    txtp: usize,
    tx: usize,
    bd: u32,
    form: Form,
) -> Answer
    requires { Quick txtp tx bd }
    ensures { (result, dst.new) ≡ add_of (reading_of form) dst.old stride coeff.now txtp tx bd }
{
    match verdicts::judge::judge_add(dst, stride, coeff, txtp, tx, bd, form.strict) {
        Err(reason) => Answer::from(reason),
        Ok(()) => {
            let s = tables::size::size_of(tx);
            fast::add::add(
                dst,
                stride,
                coeff,
                s.w,
                s.h,
                s.first,
                s.second,
                form.rowwise,
            );
            answers::finished()
        }
    }
}

// The residual of any block added into a picture at its stride; or a refusal, and nothing written.
pub fn add(
    dst: &mut [i32],
    stride: usize,
    coeff: &[i32],
    txtp: usize,
    tx: usize,
    bd: u32,
    form: Form,
) -> Answer
    ensures { (result, dst.new) ≡ add_of (reading_of form) dst.old stride coeff.now txtp tx bd }
{
    if is_quick(txtp, tx, bd) {
        add_quick(dst, stride, coeff, txtp, tx, bd, form)
    } else {
        let other = better(form, txtp, tx);
        pixels::calls::add(dst, stride, coeff, txtp, tx, bd, other)
    }
}
