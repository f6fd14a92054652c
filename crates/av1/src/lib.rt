// The inverse DCT of AV1 (document 02, section 12), as a call on a lent slice.
#![tactic(auto)]

ghost use Rattle.std.specs.Prelude.{◌≡◌, ◌≤◌, length};
ghost use Rattle.answers.specs.Reasons.{verdict_of};
ghost use Rattle.ranges.specs.Cells.{Finds};
ghost use Rattle.av1.specs.Tables.{length_ok};
ghost use Rattle.av1.specs.Calls.{number_ok, front, dct_of};

use answers::{Answer, Reason, Slice};
use ends::Ends;

// The range of what fits a number of bits.
pub mod ends;
// Tables of the inverse DCT.
pub mod tables;
// One step of the inverse DCT, and the run of a table of steps.
pub mod steps;
// The inverse DCT of each length.
pub mod dct;

// Whether there is an inverse DCT of n numbers.
fn has_length(n: usize) -> bool
    ensures { result ≡ length_ok n }
{
    matches!(n, 4 | 8 | 16 | 32 | 64)
}

// The index of the first number outside lo .. hi.
pub fn first_bad(t: &[i32], lo: i32, hi: i32) -> Option<usize>
    requires { length t.now ≤ 64 }
    ensures { Finds (number_ok lo hi t.now) (length t.now) result }
{
    ranges::find_outside(t, 0, t.len(), t.len(), 1, lo, hi)
}

// The refusals of the inverse DCT that need no step.
fn judge(n: usize, bits: u32, t: &[i32]) -> Result<(), Reason>
    ensures { verdict_of result ≡ front n bits t.now }
{
    if !(16..=20).contains(&bits) {
        return Err(Reason::Depth);
    }
    if !has_length(n) {
        return Err(Reason::Size);
    }
    if t.len() != n {
        return Err(Reason::Length(Slice::Read));
    }
    match Ends::of_bits(bits).find_bad(t) {
        Some(place) => Err(Reason::Between(place)),
        None => Ok(()),
    }
}

// The inverse DCT of n numbers, in their places; or why it is refused, and nothing written.
fn inverse(n: usize, bits: u32, t: &mut [i32]) -> Result<(), Reason>
    ensures { (verdict_of result, t.new) ≡ dct_of n bits t.old }
{
    judge(n, bits, t)?;
    dct::by_length(n, t, Ends::of_bits(bits))
}

// The same, with an answer.
pub fn av1_inv_dct(n: usize, bits: u32, t: &mut [i32]) -> Answer
    ensures { (result, t.new) ≡ dct_of n bits t.old }
{
    Answer::from(inverse(n, bits, t))
}
