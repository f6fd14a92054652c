// Steps of the inverse DCT on a lent slice: sums and differences that are tested, turns by an angle, and the run of a table of such steps.
ghost use Rattle.std.specs.Prelude.{◌≡◌, ◌+◌, ◌*◌, ◌/◌, ◌^◌, ◌≤◌, ◌<◌, nat_abs, length};
ghost use Rattle.answers.specs.Reasons.{verdict_of};
ghost use Rattle.whole.specs.Sums.{Within, item};
ghost use Rattle.av1.specs.Ops.{IsOp};
ghost use Rattle.av1.specs.Steps.{turn_x, turn_y, turn_of, sums_of, step_of, goes};
ghost use Rattle.av1.specs.Went.{went_of};
ghost use Rattle.av1.specs.Room.{StepRoom, Program, Cosines};

use crate::ends::Ends;
use answers::Reason;

// The first number of the pair x, y turned by the angle of cosine c and sine s, both times 4096.
pub fn turn_x(x: i32, y: i32, c: i32, s: i32) -> i32
    requires { (nat_abs x ≤ 2 ^ 19) × (nat_abs y ≤ 2 ^ 19) × (nat_abs c ≤ 4096) × (nat_abs s ≤ 4096) }
    ensures { result ≡ turn_x c s x y }
{
    let u = x as i64 * c as i64 - y as i64 * s as i64;
    ((u + 2048) >> 12) as i32
}

// The second number.
pub fn turn_y(x: i32, y: i32, c: i32, s: i32) -> i32
    requires { (nat_abs x ≤ 2 ^ 19) × (nat_abs y ≤ 2 ^ 19) × (nat_abs c ≤ 4096) × (nat_abs s ≤ 4096) }
    ensures { result ≡ turn_y c s x y }
{
    let u = x as i64 * s as i64 + y as i64 * c as i64;
    ((u + 2048) >> 12) as i32
}

// The pair at a and b, turned by the angle number h, stored at d and at e.
fn turn(w: &mut [i32], cos: &[i32], a: usize, b: usize, d: usize, e: usize, h: usize)
    requires a_in_bounds { (a < length w.old) × (b < length w.old) × (d < length w.old) × (e < length w.old) × (h * 2 + 1 < length cos.now) × Cosines cos.now }
    requires a_bound { (nat_abs (item w.old a) ≤ 2 ^ 19) × (nat_abs (item w.old b) ≤ 2 ^ 19) }
    ensures { w.new ≡ turn_of cos.now h a b d e w.old }
{
    let x = w[a];
    let y = w[b];
    let c = cos[h * 2];
    let s = cos[h * 2 + 1];
    let u = turn_x(x, y, c, s);
    let v = turn_y(x, y, c, s);
    w[d] = u;
    w[e] = v;
}

// The sum of the numbers at a and b at a, their difference at b; refused where one of the two, whose places are p and p + 1, lies outside the range.
// Ok is the place of what is stored next.
fn sums(w: &mut [i32], a: usize, b: usize, ends: Ends, p: usize) -> Result<usize, Reason>
    requires a_in_bounds { (a < length w.old) × (b < length w.old) × (p ≤ 10000) }
    requires a_bound { (nat_abs (item w.old a) ≤ 2 ^ 21) × (nat_abs (item w.old b) ≤ 2 ^ 21) }
    ensures { (went_of result, w.new) ≡ sums_of ends.lo ends.hi a b p w.old }
{
    let u = w[a] + w[b];
    let v = w[a] - w[b];
    ends.between(u, p)?;
    ends.between(v, p + 1)?;
    w[a] = u;
    w[b] = v;
    Ok(p + 2)
}

// What a step does with the pair that it names.
#[derive(Clone, Copy, Debug, PartialEq, Eq)]
enum Op {
    Sums, // The sum and the difference.
    Turn(usize), // A turn by the angle of this number.
    Crossed(usize), // A turn whose two results change places.
}

// The last byte of a step.
impl From<u8> for Op {
    ghost from_gives = { IsOp };

    fn from(g: u8) -> Op {
        match g {
            0 => Op::Sums,
            1..=127 => Op::Turn(g as usize),
            _ => Op::Crossed(g as usize - 128),
        }
    }
}

// One step. Ok is the place of what is stored next.
fn step(
    w: &mut [i32],
    cos: &[i32],
    a: usize,
    b: usize,
    g: u8,
    ends: Ends,
    p: usize,
) -> Result<usize, Reason>
    requires { StepRoom (length w.old) (length cos.now) a b g (item w.old a) (item w.old b) × Cosines cos.now × (p ≤ 10000) }
    ensures { (went_of result, w.new) ≡ step_of ends.lo ends.hi cos.now a b g p w.old }
{
    match Op::from(g) {
        Op::Sums => sums(w, a, b, ends, p),
        Op::Turn(h) => {
            turn(w, cos, a, b, a, b, h);
            Ok(p)
        }
        Op::Crossed(h) => {
            turn(w, cos, a, b, b, a, h);
            Ok(p)
        }
    }
}

// Steps of a table, one after another, up to the first that is refused.
pub fn run(w: &mut [i32], cos: &[i32], ops: &[u8], ends: Ends, first: usize) -> Result<(), Reason>
    requires program { Program (length w.old) (length cos.now) (length ops.now / 3) ops.now × Cosines cos.now × (first ≤ 64) }
    requires w_bound { Within (2 ^ 19) w.old }
    ensures { (verdict_of result, w.new) ≡ goes ends.lo ends.hi cos.now ops.now 0 (length ops.now / 3) first w.old }
{
    let mut p = first;
    let (steps, _) = ops.as_chunks::<3>();
    for [a, b, g] in steps {
        p = step(w, cos, *a as usize, *b as usize, *g, ends, p)?;
    }
    Ok(())
}
