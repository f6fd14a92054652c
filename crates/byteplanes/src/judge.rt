// Which refusal applies to a call on a plane of bytes: nothing is written, and no byte is read.
ghost use Rattle.std.specs.Prelude.{◌≡◌};
ghost use Rattle.answers.specs.Answers.{done};
ghost use Rattle.answers.specs.Reasons.{verdict_of};
ghost use Rattle.byteplanes.specs.Bytes.{narrow, bytes_verdict};

use answers::Reason;

// Refusals 1, 2 and 11.
#[tactic(auto, using(std::proofs::lemmas::Bool::Decides::nat_tests))]
fn judge_narrow(tx: usize, bd: u32) -> Result<(), Reason>
    ensures { verdict_of result ≡ narrow tx bd done }
{
    if bd != 8 {
        return Err(Reason::Depth);
    }
    if 24 < tx {
        return Err(Reason::Size);
    }
    let s = tables::size::size_of(tx);
    if 32 < s.w || 32 < s.h {
        return Err(Reason::LargeSide);
    }
    Ok(())
}

// What the call answers, on a plane of room bytes.
pub fn judge(
    room: usize,
    stride: usize,
    coeff: &[i32],
    txtp: usize,
    tx: usize,
    bd: u32,
    strict: bool,
) -> Result<(), Reason>
    ensures { verdict_of result ≡ bytes_verdict strict room stride coeff.now txtp tx bd }
{
    judge_narrow(tx, bd)?;
    verdicts::judge::judge_kinds(txtp, tx, bd)?;
    let s = tables::size::size_of(tx);
    verdicts::judge::judge_reach(room, stride, coeff.len(), s)?;
    verdicts::judge::judge_coefficients(coeff, s, bd, strict)
}
