// Lines through a kernel together, as many as a record has lanes: a line is a row or a column, and line k has its number x at place k * s + x * p of the work area. Where fewer lines are left than a record has lanes, the other lanes are idle: they are gathered as zeros, and never written back.
#![tactic(auto)]

pub mod fours; // Four lanes: four lines in records of four.
pub mod eights; // Eight lanes: eight lines in records of eight, or those that are left.

ghost use Rattle.std.specs.Prelude.{◌≡◌, true, ℕ, ◌+◌, ◌*◌, ◌^◌, ◌≤◌, ◌<◌, pos, nat_abs, length, get_or, take};
ghost use Rattle.std.specs.Mem.{type_size};
ghost use Rattle.whole.specs.Sums.{tab};
ghost use Rattle.whole.specs.Lanes.{col, walk, spot, Places, puts};
ghost use Rattle.whole.specs.Grid.{rows_by};
ghost use Rattle.tables.specs.Sizes.{cut};
ghost use Rattle.tables.specs.Kinds.{has_kind};
ghost use Rattle.tables.specs.Dense.{first_dense};

use lanes::Lanes;

// The numbers of the lines from place q on, s apart; those of idle lanes are 0.
fn lane_at<L: Lanes>(work: &[i32], q: usize, s: usize, lines: usize) -> L
    requires { (lines ≤ L.WIDTH) × ((k : ℕ) → k < lines → walk q s k < length work.now) }
    ensures { (k : ℕ) → L.lane result k ≡ get_or (tab lines (λ l. get_or work.now (walk q s l) (pos 0))) k (pos 0) }
{
    let mut r = L::zero();
    for k in 0..lines {
        r.set(k, work[q + k * s]);
    }
    r
}

// And back; those of idle lanes are not written.
fn put_lane<L: Lanes>(work: &mut [i32], q: usize, s: usize, r: &L, lines: usize)
    requires { (lines ≤ L.WIDTH) × ((k : ℕ) → k < lines → walk q s k < length work.old) }
    ensures { work.new ≡ puts lines (walk q s) (L.lane r.now) work.old }
{
    for k in 0..lines {
        work[q + k * s] = r.get(k);
    }
}

// A record's numbers, as `lane_at` has them. A whole record, and one whose numbers stand side by side, have loops of their own, in which the compiler moves them together.
fn record_at<L: Lanes>(work: &[i32], q: usize, s: usize, lines: usize) -> L
    requires { (lines ≤ L.WIDTH) × ((k : ℕ) → k < lines → walk q s k < length work.now) }
    ensures { (k : ℕ) → L.lane result k ≡ get_or (tab lines (λ l. get_or work.now (walk q s l) (pos 0))) k (pos 0) }
{
    if lines < L::WIDTH {
        lane_at(work, q, s, lines)
    } else if s == 1 {
        lane_at(work, q, 1, L::WIDTH)
    } else {
        lane_at(work, q, s, L::WIDTH)
    }
}

// And back.
fn put_record<L: Lanes>(work: &mut [i32], q: usize, s: usize, r: &L, lines: usize)
    requires { (lines ≤ L.WIDTH) × ((k : ℕ) → k < lines → walk q s k < length work.old) }
    ensures { work.new ≡ puts lines (walk q s) (L.lane r.now) work.old }
{
    if lines < L::WIDTH {
        put_lane(work, q, s, r, lines);
    } else if s == 1 {
        put_lane(work, q, 1, r, L::WIDTH);
    } else {
        put_lane(work, q, s, r, L::WIDTH);
    }
}

// m records from base on, p apart; the numbers of each are s apart.
fn gather<L: Lanes>(
    work: &[i32],
    ls: &mut [L],
    base: usize,
    p: usize,
    s: usize,
    m: usize,
    lines: usize,
)
    requires { (m ≤ length ls.old) × Places lines m (spot base p s) (length work.now) × (lines ≤ L.WIDTH) × (0 < lines) }
    ensures { (k : ℕ) → take m (col L.lane k ls.new) ≡ tab m (λ i. get_or (tab lines (λ l. get_or work.now (spot base p s l i) (pos 0))) k (pos 0)) }
{
    for i in 0..m {
        let q = base + i * p;
        ls[i] = record_at(work, q, s, lines);
    }
}

// And back.
fn scatter<L: Lanes>(
    work: &mut [i32],
    ls: &[L],
    base: usize,
    p: usize,
    s: usize,
    m: usize,
    lines: usize,
)
    requires { (m ≤ length ls.now) × Places lines m (spot base p s) (length work.old) × (lines ≤ L.WIDTH) × (0 < lines) }
    ensures by_index { (k i : ℕ) → k < lines → i < m → get_or work.new (spot base p s k i) (pos 0) ≡ get_or (col L.lane k ls.now) i (pos 0) }
    ensures by_index_2 { (z : ℕ) → ((k i : ℕ) → k < lines → i < m → z ≡ spot base p s k i → ⊥) → get_or work.new z (pos 0) ≡ get_or work.old z (pos 0) }
{
    for i in 0..m {
        let q = base + i * p;
        put_record(work, q, s, &ls[i], lines);
    }
}

// The lines of a group through their kernel, with areas of R records for its inputs and for its results.
fn in_areas<L: Lanes, const R: usize>(
    work: &mut [i32],
    base: usize,
    p: usize,
    s: usize,
    m: usize,
    n: usize,
    code: usize,
    live: usize,
    lines: usize,
)
    requires space { R * type_size L.row < 2 ^ 63 }
    requires code_value { (has_kind n code ≡ true) × (cut n ≡ m) × (m ≤ R) × (live ≤ m) × Places lines m (spot base p s) (length work.old) × (lines ≤ L.WIDTH) × (0 < lines) }
    requires by_index { (k i : ℕ) → k < lines → i < live → nat_abs (get_or work.old (spot base p s k i) (pos 0)) ≤ 2 ^ 19 }
    ensures by_index_2 { (k i : ℕ) → k < lines → i < m → get_or work.new (spot base p s k i) (pos 0) ≡ get_or (first_dense n code live (tab m (λ y. get_or work.old (spot base p s k y) (pos 0)))) i (pos 0) }
    ensures by_index_3 { (z : ℕ) → ((k i : ℕ) → k < lines → i < m → z ≡ spot base p s k i → ⊥) → get_or work.new z (pos 0) ≡ get_or work.old z (pos 0) }
{
    let z = L::zero();
    let mut ls = [z; R];
    let mut rs = [z; R];
    gather(&work[..], &mut ls[..], base, p, s, live, lines);
    lanes::lane_tx1d_into(&mut ls[..], &mut rs[..], n, code, live);
    scatter(work, &rs[..], base, p, s, m, lines);
}

// The lines of a group, of m numbers, of which the first live count, through the kernel of length n and kind code.
pub fn through<L: Lanes>(
    work: &mut [i32],
    base: usize,
    p: usize,
    s: usize,
    m: usize,
    n: usize,
    code: usize,
    live: usize,
    lines: usize,
)
    requires space { 32 * type_size L.row < 2 ^ 63 }
    requires code_value { (has_kind n code ≡ true) × (cut n ≡ m) × (live ≤ m) × Places lines m (spot base p s) (length work.old) × (lines ≤ L.WIDTH) × (0 < lines) }
    requires by_index { (k i : ℕ) → k < lines → i < live → nat_abs (get_or work.old (spot base p s k i) (pos 0)) ≤ 2 ^ 19 }
    ensures by_index_2 { (k i : ℕ) → k < lines → i < m → get_or work.new (spot base p s k i) (pos 0) ≡ get_or (first_dense n code live (tab m (λ y. get_or work.old (spot base p s k y) (pos 0)))) i (pos 0) }
    ensures by_index_3 { (z : ℕ) → ((k i : ℕ) → k < lines → i < m → z ≡ spot base p s k i → ⊥) → get_or work.new z (pos 0) ≡ get_or work.old z (pos 0) }
{
    if m <= 8 {
        in_areas::<L, 8>(work, base, p, s, m, n, code, live, lines);
    } else {
        in_areas::<L, 32>(work, base, p, s, m, n, code, live, lines);
    }
}

// Each of count lines of m numbers, of which the first live count, through the kernel of length n and kind code, as many at a time as a record has lanes; of the last group fewer may be there.
pub fn lane_pass<L: Lanes>(
    work: &mut [i32],
    count: usize,
    p: usize,
    s: usize,
    m: usize,
    n: usize,
    code: usize,
    live: usize,
)
    requires space { 32 * type_size L.row < 2 ^ 63 }
    requires code_value { (has_kind n code ≡ true) × (cut n ≡ m) × (0 < L.WIDTH) × (count ≤ 32) × (s ≤ 32) × (live ≤ m) × Places count m (λ k x. k * s + x * p) (length work.old) }
    requires by_index { (k x : ℕ) → k < count → x < live → nat_abs (get_or work.old (k * s + x * p) (pos 0)) ≤ 2 ^ 19 }
    ensures { (k x : ℕ) → k < count → x < m → get_or work.new (k * s + x * p) (pos 0) ≡ rows_by (first_dense n code live) m (λ k x. get_or work.old (k * s + x * p) (pos 0)) k x }
{
    let mut line = 0;
    // Kept: the loop goes on by the lines that were taken, of which the last turn may have fewer.
    while line < count {
        let lines = L::WIDTH.min(count - line);
        let base = line * s;
        through::<L>(work, base, p, s, m, n, code, live, lines);
        line += lines;
    }
}
