// The inverse 4x4 WHT of AV1 (document 02, section 12), as a call on a lent slice.
#![tactic(auto)]

ghost use Rattle.std.specs.Prelude.{◌≡◌, ◌^◌, length};
ghost use Rattle.answers.specs.Reasons.{verdict_of};
ghost use Rattle.whole.specs.Sums.{Within};
ghost use Rattle.av1_wht.specs.Wht.{quarters, wht_verdict, wht_of};

use answers::{Answer, Reason, Slice};
use av1::ends::Ends;

// The refusals of the inverse WHT.
fn judge(bits: u32, t: &[i32]) -> Result<(), Reason>
    ensures { verdict_of result ≡ wht_verdict bits t.now }
{
    if !(16..=20).contains(&bits) {
        return Err(Reason::Depth);
    }
    if t.len() != 16 {
        return Err(Reason::Length(Slice::Read));
    }
    match Ends::of_bits(bits).find_bad(t) {
        Some(place) => Err(Reason::Between(place)),
        None => Ok(()),
    }
}

// The sixteen numbers of t, each divided by 4 and rounded down.
fn divided(w: &mut [i32], t: &[i32])
    requires { (length w.old ≡ 16) × (length t.now ≡ 16) × Within (2 ^ 19) t.now }
    ensures { w.new ≡ quarters t.now }
{
    for (i, x) in w.iter_mut().enumerate() {
        *x = t[i] >> 2;
    }
}

// The inverse WHT of four rows of four numbers, in their places; or why it is refused, and nothing written.
fn inverse(bits: u32, t: &mut [i32]) -> Result<(), Reason>
    ensures { (verdict_of result, t.new) ≡ wht_of bits t.old }
{
    judge(bits, t)?;
    let mut w = [0; 16];
    divided(&mut w, t);
    wht::residuals(&w, t);
    Ok(())
}

// The same, with an answer.
pub fn av1_inv_wht4x4(bits: u32, t: &mut [i32]) -> Answer
    ensures { (result, t.new) ≡ wht_of bits t.old }
{
    Answer::from(inverse(bits, t))
}
