// Numbers of 16 bits between the passes, at depth 8: one number, and one row of them.
#![tactic(auto)]

ghost use Rattle.std.specs.Prelude.{◌≡◌, true, ℕ, ◌+◌, ◌*◌, ◌/◌, ◌^◌, ◌≤◌, ◌<◌, pos, nat_abs, ◌+ℤ◌, length, get_or};
ghost use Rattle.whole.specs.Numbers.{clamp, lowest, highest, round_shift};
ghost use Rattle.whole.specs.Sums.{tab, Within};
ghost use Rattle.passes.specs.Passes.{entry, scalable, settled_to};

// z, or the nearest number of 16 bits: the clamp to depth + 7 at depth 8.
pub fn short(z: i32) -> i16
    ensures { result ≡ clamp (lowest 15) (highest 15) z }
{
    let y = ranges::clamped(z, -32768, 32767);
    y as i16
}

// A coefficient as it enters: scaled where the size asks for it, then clamped.
fn entered(v: i32, scale: bool) -> i16
    requires { scale ≡ true → scalable v ≡ true }
    ensures { result ≡ entry scale 8 v }
{
    let y = passes::load::scaled(v, scale);
    short(y)
}

// The coefficients from base on, step apart, as they enter.
pub fn load_row(row: &mut [i16], coeff: &[i32], base: usize, step: usize, scale: bool)
    requires by_index { (l : ℕ) → l < length row.old → base + l * step < length coeff.now }
    requires by_index_2 { (l : ℕ) → l < length row.old → scale ≡ true → scalable (get_or coeff.now (base + l * step) (pos 0)) ≡ true }
    ensures { row.new ≡ tab (length row.old) (λ l. entry scale 8 (get_or coeff.now (base + l * step) (pos 0))) }
{
    for (l, x) in row.iter_mut().enumerate() {
        let i = base + l * step;
        *x = entered(coeff[i], scale);
    }
}

// The results from p on, sixteen apart, rounded to 16 bits.
pub fn turn_row(row: &mut [i16], out: &[i32], p: usize, shift: u32)
    requires { (shift ≤ 16) × ((m : ℕ) → m < length row.old → (p + m * 16 < length out.now) × (nat_abs (get_or out.now (p + m * 16) (pos 0)) ≤ 2 ^ 30)) }
    ensures { row.new ≡ tab (length row.old) (λ m. settled_to 15 shift (get_or out.now (p + m * 16) (pos 0))) }
{
    for (m, x) in row.iter_mut().enumerate() {
        let i = p + m * 16;
        *x = short(ranges::rounded(out[i], shift));
    }
}

// Every number of a list, rounded.
pub fn settle(out: &mut [i32], shift: u32)
    requires { Within (2 ^ 30) out.old × (shift ≤ 16) }
    ensures { out.new ≡ tab (length out.old) (λ k. round_shift shift (get_or out.old k (pos 0))) }
{
    for x in out.iter_mut() {
        *x = ranges::rounded(*x, shift);
    }
}

// A sample with its residual, which is rounded here and needs no clamp of its own.
pub fn gained(p: i32, e: i32, shift: u32) -> i32
    requires { (nat_abs p ≤ 4096) × (nat_abs e ≤ 2 ^ 30) × (shift ≤ 16) }
    ensures { result ≡ clamp (pos 0) (pos 255) (p +ℤ round_shift shift e) }
{
    let r = ranges::rounded(e, shift);
    let z = p + r;
    ranges::clamped(z, 0, 255)
}

// Each sample of a row gains its residual; each residual serves 2^HALF samples.
fn gain<const HALF: u32>(row: &mut [i32], e: [i32; 16], shift: u32)
    requires { Within 4096 row.old × Within (2 ^ 30) e × (HALF ≤ 1) × ((x : ℕ) → x < length row.old → x / 2 ^ HALF < 16) × (shift ≤ 16) }
    ensures { row.new ≡ tab (length row.old) (λ x. clamp (pos 0) (pos 255) (get_or row.old x (pos 0) +ℤ round_shift shift (get_or e (x / 2 ^ HALF) (pos 0)))) }
{
    for (x, p) in row.iter_mut().enumerate() {
        *p = gained(*p, e[x >> HALF], shift);
    }
}

// The same, with a loop of its own for each way of repeating.
pub fn gain_row(row: &mut [i32], e: [i32; 16], half: u32, shift: u32)
    requires { Within 4096 row.old × Within (2 ^ 30) e × (half ≤ 1) × ((x : ℕ) → x < length row.old → x / 2 ^ half < 16) × (shift ≤ 16) }
    ensures { row.new ≡ tab (length row.old) (λ x. clamp (pos 0) (pos 255) (get_or row.old x (pos 0) +ℤ round_shift shift (get_or e (x / 2 ^ half) (pos 0)))) }
{
    if half == 0 {
        gain::<0>(row, e, shift);
    } else {
        gain::<1>(row, e, shift);
    }
}

// Row y of the results.
// Kept: a loop, not `copy_from_slice`, which keeps the row in memory: 16x16 takes 7,895 instructions, not 7,483.
pub fn row_of(out: &[i32], y: usize) -> [i32; 16]
    requires { y * 16 + 16 ≤ length out.now }
    ensures { result ≡ tab 16 (λ l. get_or out.now (y * 16 + l) (pos 0)) }
{
    let mut r = [0i32; 16];
    for l in 0..16 {
        let i = y * 16 + l;
        r[l] = out[i];
    }
    r
}
