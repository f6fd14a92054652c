// The 4x4 Walsh-Hadamard transform of document 01 and its inverse, as calls on lent slices of sixteen.
#![tactic(auto)]

ghost use Rattle.std.specs.Prelude.{◌≡◌, length};
ghost use Rattle.answers.specs.Reasons.{verdict_of};
ghost use Rattle.ranges.specs.Cells.{Finds};
ghost use Rattle.wht.specs.Wht.{fwht, iwht};
ghost use Rattle.wht.specs.Calls.{Sixteen, number_ok, verdict, fwht_of, iwht_of};

use answers::{Answer, Reason, Slice};

// Blocks of four rows of four, by value: the two transforms.
pub mod blocks;
// Sixteen numbers of a slice as a block, and back.
pub mod slices;

// The first of sixteen numbers outside lo .. hi.
pub fn find_bad(l: &[i32], lo: i32, hi: i32) -> Option<usize>
    requires { length l.now ≡ 16 }
    ensures { Finds (number_ok lo hi l.now) 16 result }
{
    ranges::find_outside(l, 0, 4, 4, 4, lo, hi)
}

// The refusals 6 and 7 of a call that reads l and writes n numbers.
fn judge(l: &[i32], n: usize, lo: i32, hi: i32) -> Result<(), Reason>
    ensures { verdict_of result ≡ verdict lo hi l.now n }
{
    if l.len() != 16 {
        return Err(Reason::Length(Slice::Read));
    }
    if n != 16 {
        return Err(Reason::Length(Slice::Output));
    }
    match find_bad(l, lo, hi) {
        Some(place) => Err(Reason::Level(Slice::Read, place)),
        None => Ok(()),
    }
}

// The levels of sixteen residuals that fwht4x4 accepts.
pub fn levels(resid: &[i32], level: &mut [i32])
    requires { Sixteen 65535 resid.now × (length level.old ≡ 16) }
    ensures { level.new ≡ fwht resid.now }
{
    let m = slices::loaded(resid);
    let r = blocks::forward44(m);
    slices::stored(level, r);
}

// The residuals of sixteen levels that iwht4x4 accepts.
pub fn residuals(level: &[i32], resid: &mut [i32])
    requires { Sixteen 262144 level.now × (length resid.old ≡ 16) }
    ensures { resid.new ≡ iwht level.now }
{
    let m = slices::loaded(level);
    let r = blocks::inverse44(m);
    slices::stored(resid, r);
}

// The forward transform.
pub fn fwht4x4(resid: &[i32], level: &mut [i32]) -> Answer
    ensures { (result, level.new) ≡ fwht_of resid.now level.old }
{
    match judge(resid, level.len(), -65535, 65535) {
        Err(reason) => Answer::from(reason),
        Ok(()) => {
            levels(resid, level);
            answers::finished()
        }
    }
}

// The inverse transform.
pub fn iwht4x4(level: &[i32], resid: &mut [i32]) -> Answer
    ensures { (result, resid.new) ≡ iwht_of level.now resid.old }
{
    match judge(level, resid.len(), -262144, 262144) {
        Err(reason) => Answer::from(reason),
        Ok(()) => {
            residuals(level, resid);
            answers::finished()
        }
    }
}
