// Rows of sixteen numbers, one of each line: sums of products with literal weights, and their places in the results.
ghost use Rattle.std.specs.Prelude.{◌≡◌, [], ◌∷◌, ◌+◌, ◌*◌, ◌-◌, ◌^◌, ◌≤◌, ◌<◌, pos, nat_abs, ◌+ℤ◌, length, get_or};
ghost use Rattle.whole.specs.Sums.{tab, dot_z, Within};
ghost use Rattle.wide_rows.specs.Lines.{taps, Low, Both, Written, Asks, Step, Half, Start};

use crate::Two;

// A number at 32 bits.
fn at(w: &[i16], i: usize) -> i32
    requires { i < length w.now }
    ensures { (result ≡ get_or w.now i (pos 0)) × (nat_abs result ≤ 2 ^ 15) }
{
    w[i] as i32
}

// The products of N numbers d apart.
fn sum<const N: usize>(w: &[i16], i: usize, d: usize, k: [i32; N]) -> i32
    requires { (i + (N - 1) * d < length w.now) × (N ≤ 8) × Within (2 ^ 7) k }
    ensures { (result ≡ dot_z k.entry (taps N i d w.now)) × (nat_abs result ≤ N * 2 ^ 22) }
{
    let mut s = 0;
    for j in 0..N {
        let p = i + j * d;
        let x = at(w, p);
        s += k[j] * x;
    }
    s
}

// N weights of a table, from place p on, d apart.
fn weights<const N: usize>(t: &[i8], p: usize, d: usize) -> [i32; N]
    requires { p + (N - 1) * d < length t.now }
    ensures { (result ≡ taps N p d t.now) × Within (2 ^ 7) result }
{
    let mut k = [0i32; N];
    for i in 0..N {
        let q = p + i * d;
        k[i] = t[q] as i32;
    }
    k
}

// Sums and differences of the products of inputs 0 and 2, by the weights k, and of inputs 1 and 3, by h, of four numbers d apart.
fn two(w: &[i16], d: usize, k: [i32; 2], h: [i32; 2]) -> Two
    requires { (15 + 3 * d < length w.now) × Within (2 ^ 7) k × Within (2 ^ 7) h }
    ensures { Both (λ l. dot_z k (taps 2 l (d + d) w.now)) (λ l. dot_z h (taps 2 (l + d) (d + d) w.now)) result.lo result.hi × Low (2 ^ 23) (λ l. dot_z k (taps 2 l (d + d) w.now)) }
{
    let dd = d + d;
    let mut lo = [0i32; 16];
    let mut hi = [0i32; 16];
    for l in 0..16 {
        let i = l + d;
        let y = sum(w, l, dd, k);
        let o = sum(w, i, dd, h);
        lo[l] = y + o;
        hi[l] = y - o;
    }
    Two { lo: lo, hi: hi }
}

// The row e with the products of N numbers from b on, d apart: sums and differences.
fn join<const N: usize>(e: &[i32], w: &[i16], b: usize, d: usize, k: [i32; N]) -> Two
    requires { (length e.now ≡ 16) × Within (2 ^ 28) e.now × (b + 15 + (N - 1) * d < length w.now) × (N ≤ 8) × Within (2 ^ 7) k }
    ensures { Both (λ l. get_or e.now l (pos 0)) (λ l. dot_z k.entry (taps N (b + l) d w.now)) result.lo result.hi }
{
    let mut lo = [0i32; 16];
    let mut hi = [0i32; 16];
    for l in 0..16 {
        let i = b + l;
        let o = sum(w, i, d, k);
        let y = e[l];
        lo[l] = y + o;
        hi[l] = y - o;
    }
    Two { lo: lo, hi: hi }
}

// The products of N numbers from b on, d apart.
fn part<const N: usize>(w: &[i16], b: usize, d: usize, k: [i32; N]) -> [i32; 16]
    requires { (b + 15 + (N - 1) * d < length w.now) × (N ≤ 8) × Within (2 ^ 7) k }
    ensures { (result ≡ tab 16 (λ l. dot_z k.entry (taps N (b + l) d w.now))) × Within (2 ^ 25) result }
{
    let mut r = [0i32; 16];
    for l in 0..16 {
        let i = b + l;
        r[l] = sum(w, i, d, k);
    }
    r
}

// The row e with the numbers p and the products of N numbers from b on, d apart: sums and differences.
fn join_more<const N: usize>(
    e: &[i32],
    p: [i32; 16],
    w: &[i16],
    b: usize,
    d: usize,
    k: [i32; N],
) -> Two
    requires { (length e.now ≡ 16) × Within (2 ^ 28) e.now × Within (2 ^ 25) p × (b + 15 + (N - 1) * d < length w.now) × (N ≤ 8) × Within (2 ^ 7) k }
    ensures { Both (λ l. get_or e.now l (pos 0)) (λ l. get_or p l (pos 0) +ℤ dot_z k.entry (taps N (b + l) d w.now)) result.lo result.hi }
{
    let mut lo = [0i32; 16];
    let mut hi = [0i32; 16];
    for l in 0..16 {
        let i = b + l;
        let s = sum(w, i, d, k);
        let o = p[l] + s;
        let y = e[l];
        lo[l] = y + o;
        hi[l] = y - o;
    }
    Two { lo: lo, hi: hi }
}

// The numbers r into a row.
// Kept: `copy_from_slice` lends the row's address, and then the sums aren't kept in registers: 8x8 takes 3,905 instructions, not 3,153.
fn put(out: &mut [i32], r: [i32; 16])
    requires { length out.old ≡ 16 }
    ensures { out.new ≡ tab 16 (λ l. get_or r l (pos 0)) }
{
    for l in 0..16 {
        out[l] = r[l];
    }
}

// Sums and differences into rows m and z.
fn put_two(out: &mut [i32], m: usize, z: usize, p: Two)
    requires { (m < z) × (z * 16 + 16 ≤ length out.old) }
    ensures { Written m z (λ l. get_or p.lo l (pos 0)) (λ l. get_or p.hi l (pos 0)) out.old out.new }
{
    let lo = p.lo;
    let hi = p.hi;
    let a = m * 16;
    let b = a + 16;
    put(&mut out[a..b], lo);
    let y = z * 16;
    let x = y + 16;
    put(&mut out[y..x], hi);
}

// Results m and z of the first four inputs of n, d apart, whose weights are those of column m of a table of rows of s.
pub fn row_of_two(out: &mut [i32], w: &[i16], d: usize, t: &[i8], s: usize, m: usize, z: usize)
    requires { (m < z) × (z * 16 + 16 ≤ length out.old) × (15 + 3 * d < length w.now) × (m + 3 * s < length t.now) }
    ensures { Start s d m z w.now t.now out.old out.new }
{
    let r = m + s;
    let ss = s + s;
    let k = weights::<2>(t, m, ss);
    let h = weights::<2>(t, r, ss);
    let q = two(w, d, k, h);
    put_two(out, m, z, q);
}

// Row m of the even half with the products of N odd inputs: the sum there, the difference in row z.
pub fn row_of<const N: usize>(out: &mut [i32], w: &[i16], b: usize, t: &[i8], m: usize, z: usize)
    requires { (0 < N) × (N ≤ 8) × Asks N b m z out.old w.now t.now }
    ensures { Step N b m z w.now t.now out.old out.new }
{
    let r = m * N;
    let k = weights::<N>(t, r, 1);
    let a = m * 16;
    let e = a + 16;
    let d = b + b;
    let q = join(&out[a..e], w, b, d, k);
    put_two(out, m, z, q);
}

// The products of the first eight of sixteen odd inputs.
pub fn half_of_sixteen(w: &[i16], b: usize, t: &[i8], m: usize) -> [i32; 16]
    requires { (b + 15 + 7 * (b + b) < length w.now) × (m * 16 + 16 ≤ length t.now) }
    ensures { Half b m w.now t.now result }
{
    let r = m * 16;
    let k = weights::<8>(t, r, 1);
    let d = b + b;
    part(w, b, d, k)
}

// Row m of the even half with the products of sixteen odd inputs, p those of the first eight: the sum there, the difference in row z.
// Kept: sixteen products in one row aren't compiled to literals (32x32 takes 86,551 instructions, not 43,887), so they are two rows of eight.
pub fn row_of_sixteen(
    out: &mut [i32],
    p: [i32; 16],
    w: &[i16],
    b: usize,
    t: &[i8],
    m: usize,
    z: usize,
)
    requires { Asks 16 b m z out.old w.now t.now × Half b m w.now t.now p }
    ensures { Step 16 b m z w.now t.now out.old out.new }
{
    let a = m * 16;
    let r = a + 8;
    let k = weights::<8>(t, r, 1);
    let e = a + 16;
    let d = b + b;
    let f = b + 8 * d;
    let q = join_more(&out[a..e], p, w, f, d, k);
    put_two(out, m, z, q);
}
