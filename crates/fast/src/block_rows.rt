// The rows of a block, sixteen at a time: coefficients enter side by side, go through the DCT, and are turned into the columns' groups.
ghost use Rattle.std.specs.Prelude.{◌≡◌, true, ℕ, ◌+◌, ◌*◌, ◌^◌, ◌≤◌, ◌<◌, pos, nat_abs, length, get_or};
ghost use Rattle.passes.specs.Passes.{entry, scalable, loaded, Scalable, settled_to};
ghost use Rattle.wide_rows.specs.Lines.{line, Sized, Silent};
ghost use Rattle.narrow.specs.Painted.{Painted};
ghost use Rattle.fast.specs.Groups.{Loaded, Area, Grouped, after_rows, Dry};

// The first live numbers of k rows from r on, side by side: rows start down apart, the numbers of a row are across apart.
fn load(
    t: &mut [i16],
    coeff: &[i32],
    live: usize,
    k: usize,
    r: usize,
    down: usize,
    across: usize,
    scale: bool,
)
    requires k_nonzero { (0 < k) × (k ≤ 16) × (live * 16 ≤ length t.old) }
    requires by_index { (l x : ℕ) → l < k → x < live → (r * down + x * across + l * down < length coeff.now) × (scale ≡ true → scalable (get_or coeff.now (r * down + x * across + l * down) (pos 0)) ≡ true) }
    ensures { Loaded live k (λ l x. entry scale 8 (get_or coeff.now (r * down + x * across + l * down) (pos 0))) t.old t.new }
{
    for x in 0..live {
        let a = x * 16;
        let e = a + k;
        let b = r * down + x * across;
        narrow::load_row(&mut t[a..e], coeff, b, down, scale);
    }
}

// The same, by the order of the coefficients.
fn enter(
    t: &mut [i16],
    coeff: &[i32],
    sw: usize,
    sh: usize,
    live: usize,
    r: usize,
    k: usize,
    scale: bool,
    rowwise: bool,
)
    requires { (live ≤ sw) × (r + k ≤ sh) × (0 < k) × (k ≤ 16) × (sw * 16 ≤ length t.old) × (sw * sh ≤ length coeff.now) × Scalable scale (sw * sh) coeff.now }
    ensures { Loaded live k (λ l x. loaded rowwise scale 8 sw sh coeff.now (r + l) x) t.old t.new }
{
    if rowwise {
        load(t, coeff, live, k, r, sw, 1, scale);
    } else {
        load(t, coeff, live, k, r, 1, sh, scale);
    }
}

// The first k lines of the results, c numbers of each, from p on: row after row of the work area, from there on.
fn turn(work: &mut [i16], out: &[i32], from: usize, p: usize, k: usize, c: usize, shift: u32)
    requires c_nonzero { (0 < c) × (c ≤ 16) × (from + k * 16 ≤ length work.old) × (shift ≤ 16) }
    requires by_index { (l m : ℕ) → l < k → m < c → (p + l + m * 16 < length out.now) × (nat_abs (get_or out.now (p + l + m * 16) (pos 0)) ≤ 2 ^ 30) }
    ensures { Painted (pos 0) from 16 c k (λ l m. settled_to 15 shift (get_or out.now (p + l + m * 16) (pos 0))) work.old work.new }
{
    for l in 0..k {
        let a = from + l * 16;
        let e = a + c;
        let b = p + l;
        narrow::turn_row(&mut work[a..e], out, b, shift);
    }
}

// The first k lines of the results become rows r .. of the work area.
fn leave(work: &mut [i16], out: &[i32], sw: usize, sh: usize, r: usize, k: usize, shift: u32)
    requires { Sized sw × (sw * 16 ≤ length out.now) × ((l x : ℕ) → l < 16 → x < sw → nat_abs (line out.now l x) ≤ 2 ^ 30) × (r + k ≤ sh) × (k ≤ 16) × Area sw sh work.old × (shift ≤ 16) }
    ensures { Grouped sw sh r k (λ l x. settled_to 15 shift (line out.now l x)) work.old work.new }
{
    let a = r * 16;
    if sw <= 16 {
        turn(work, out, a, 0, k, sw, shift);
    } else {
        let b = (sh + r) * 16;
        turn(work, out, a, 0, k, 16, shift);
        turn(work, out, b, 256, k, 16, shift);
    }
}

// Rows r .. r + k: they enter, go through the DCT, and are turned.
fn group(
    work: &mut [i16],
    t: &mut [i16],
    out: &mut [i32],
    coeff: &[i32],
    sw: usize,
    sh: usize,
    live: usize,
    r: usize,
    k: usize,
    shift: u32,
    scale: bool,
    rowwise: bool,
)
    requires sized { Sized sw × (live ≤ sw) × (r + k ≤ sh) × (0 < k) × (k ≤ 16) × (sw * 16 ≤ length t.old) × (sw * 16 ≤ length out.old) × Area sw sh work.old × (shift ≤ 16) }
    requires sh_in_bounds { (sw * sh ≤ length coeff.now) × Scalable scale (sw * sh) coeff.now × Silent sw live t.old × Dry sw sh live (loaded rowwise scale 8 sw sh coeff.now) }
    ensures { Grouped sw sh r k (λ l x. after_rows sw shift (loaded rowwise scale 8 sw sh coeff.now) (r + l) x) work.old work.new × Silent sw live t.new }
{
    enter(t, coeff, sw, sh, live, r, k, scale, rowwise);
    wide::dct::lines(t, out, sw, live);
    leave(work, out, sw, sh, r, k, shift);
}

// The first rows of a block, sixteen at a time.
pub fn rows(
    work: &mut [i16],
    t: &mut [i16],
    out: &mut [i32],
    coeff: &[i32],
    sw: usize,
    sh: usize,
    live: usize,
    rows: usize,
    shift: u32,
    scale: bool,
    rowwise: bool,
)
    requires sized { Sized sw × (live ≤ sw) × (rows ≤ sh) × (sw * 16 ≤ length t.old) × (sw * 16 ≤ length out.old) × Area sw sh work.old × (shift ≤ 16) }
    requires sh_in_bounds { (sw * sh ≤ length coeff.now) × Scalable scale (sw * sh) coeff.now × Silent sw live t.old × Dry sw sh live (loaded rowwise scale 8 sw sh coeff.now) }
    ensures { Grouped sw sh 0 rows (after_rows sw shift (loaded rowwise scale 8 sw sh coeff.now)) work.old work.new }
{
    for r in (0..rows).step_by(16) {
        let k = (rows - r).min(16);
        group(
            work, t, out, coeff, sw, sh, live, r, k, shift, scale, rowwise,
        );
    }
}
