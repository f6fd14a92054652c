// The chroma call: the pairs of two lent lists, turned by an angle in their places.
#![tactic(auto)]

ghost use Rattle.std.specs.Prelude.{◌≡◌, ◌&&◌, ◌^◌, ◌≤◌, ◌<◌, nat_abs, length};
ghost use Rattle.whole.specs.Numbers.{in_range};
ghost use Rattle.whole.specs.Sums.{Within};
ghost use Rattle.answers.specs.Reasons.{slice_of, verdict_of};
ghost use Rattle.ranges.specs.Cells.{Finds};
ghost use Rattle.chroma.specs.Chroma.{round256, turn_u, turn_v, turned, pair_ok, shorter_of, bad_of, verdict, cctx_of};

use answers::{Answer, Reason, Slice};

// a / 256, halves away from zero.
fn round(a: i32) -> i32
    requires { nat_abs a ≤ 2 ^ 30 }
    ensures { result ≡ round256 a }
{
    if a < 0 {
        (a + 127) >> 8
    } else {
        (a + 128) >> 8
    }
}

// One pair, turned.
fn turn(u: i32, v: i32, sina: i32, cosa: i32, lo: i32, hi: i32) -> (i32, i32)
    requires { (nat_abs u ≤ 2 ^ 19) × (nat_abs v ≤ 2 ^ 19) × (nat_abs sina ≤ 256) × (nat_abs cosa ≤ 256) }
    ensures { (result.0 ≡ turn_u lo hi sina cosa u v) × (result.1 ≡ turn_v lo hi sina cosa u v) }
{
    let a = u * cosa - v * sina;
    let b = u * sina + v * cosa;
    (
        ranges::clamped(round(a), lo, hi),
        ranges::clamped(round(b), lo, hi),
    )
}

// Every pair, turned in its place.
fn turn_all(u: &mut [i32], v: &mut [i32], sina: i32, cosa: i32, lo: i32, hi: i32)
    requires u_len { (length u.old ≡ length v.old) × (nat_abs sina ≤ 256) × (nat_abs cosa ≤ 256) }
    requires within { Within (2 ^ 19) u.old × Within (2 ^ 19) v.old }
    ensures { (u.new, v.new) ≡ turned lo hi sina cosa u.old v.old }
{
    for i in 0..u.len() {
        (u[i], v[i]) = turn(u[i], v[i], sina, cosa, lo, hi);
    }
}

// Whether both numbers of a pair lie in lo .. hi.
fn both_inside(u: i32, v: i32, lo: i32, hi: i32) -> bool
    ensures { result ≡ (in_range lo hi u && in_range lo hi v) }
{
    ranges::inside(u, lo, hi) && ranges::inside(v, lo, hi)
}

// The index of the first pair out of range.
fn first_bad(u: &[i32], v: &[i32], lo: i32, hi: i32) -> Option<usize>
    requires { length u.now ≡ length v.now }
    ensures { Finds (pair_ok lo hi u.now v.now) (length u.now) result }
{
    for i in 0..u.len() {
        if !both_inside(u[i], v[i], lo, hi) {
            return Some(i);
        }
    }
    None
}

// The slice that is the shorter: the first of m numbers, or the second of n.
fn shorter(m: usize, n: usize) -> Slice
    ensures { slice_of result ≡ shorter_of m n }
{
    if m < n {
        Slice::FirstChroma
    } else {
        Slice::SecondChroma
    }
}

// The slice that is out of range at a bad pair: the first where u is, else the second.
fn out_of_range(u: &[i32], at: usize, lo: i32, hi: i32) -> Slice
    requires { at < length u.now }
    ensures { slice_of result ≡ bad_of lo hi u.now at }
{
    if ranges::inside(u[at], lo, hi) {
        Slice::SecondChroma
    } else {
        Slice::FirstChroma
    }
}

// What the call answers: the lowest refusal that applies, or Done.
#[tactic(auto, unfolding(crate::specs::Chroma::verdict))]
fn judge(u: &[i32], v: &[i32], sina: i32, cosa: i32, bd: u32) -> Result<(), Reason>
    ensures { verdict_of result ≡ verdict u.now v.now sina cosa bd }
{
    if bd < 8 || 12 < bd {
        return Err(Reason::Depth);
    }
    if u.len() != v.len() {
        return Err(Reason::Length(shorter(u.len(), v.len())));
    }
    let least = ranges::low_end(bd + 7);
    let most = ranges::high_end(bd + 7);
    if let Some(bad) = first_bad(u, v, least, most) {
        return Err(Reason::Level(out_of_range(u, bad, least, most), bad));
    }
    if !ranges::inside(sina, -256, 256) {
        return Err(Reason::Sine);
    }
    if !ranges::inside(cosa, -256, 256) {
        return Err(Reason::Cosine);
    }
    Ok(())
}

// The pairs turned in their places; or a refusal, and nothing written.
pub fn cctx(u: &mut [i32], v: &mut [i32], sina: i32, cosa: i32, bd: u32) -> Answer
    ensures { (result, (u.new, v.new)) ≡ cctx_of u.old v.old sina cosa bd }
{
    match judge(u, v, sina, cosa, bd) {
        Err(reason) => Answer::from(reason),
        Ok(()) => {
            let lo = ranges::low_end(bd + 7);
            let hi = ranges::high_end(bd + 7);
            turn_all(u, v, sina, cosa, lo, hi);
            answers::finished()
        }
    }
}
