// Folding, in one pass from the oldest step on. o says for each step into which one it went: itself, an earlier one, or 4096 where it was dropped.
ghost use Rattle.std.specs.Prelude.{◌≡◌, true, ◌&&◌, cond, suc, ◌+◌, ◌*◌, ◌^◌, ◌≤◌, ◌<◌, eqb, pos, ◌+ℤ◌, length, set};
ghost use Rattle.whole.specs.Sums.{tab, item};
ghost use Rattle.wht.specs.Wht.{fwht, iwht};
ghost use Rattle.wht.specs.Calls.{Sixteen};
ghost use Rattle.remain.specs.Remaining.{word as Remaining·word, counted, mark, mark_at, levels_at, entries, put_mark, put_on};
ghost use Rattle.remain.specs.Touch.{touches};
ghost use Rattle.folding.specs.Fold.{is_zero, sizes, steps_folded, levels_folded};
ghost use Rattle.folding.specs.Pass.{pass_fair, one_pass};
ghost use Rattle.folding.specs.Owners.{total, sum_of, alike_at, Listed, Sums, Owned, Placed, Puts, Put};
ghost use Rattle.folding.specs.Owners.{owner as Owners·owner, partner as Owners·partner};

use remain::list;
use remain::words::{shares, word};

// The step that step j went into.
// Kept: 4096 for a step that is gone (definition `owner` and record `Owned` of folding/specs/Owners.antt). An option for each of 4096 steps would double the lent memory.
fn owner(o: &[u16], j: usize) -> usize
    requires { j < length o.now }
    ensures { result ≡ Owners·owner o.now j }
{
    o[j] as usize
}

// The numbers of a, added to those of out.
fn plus(a: &[i32], out: &mut [i32])
    requires { Sixteen 1048576 a.now × Sixteen 1048576 out.old }
    ensures { out.new ≡ tab 16 (λ k. item out.old k +ℤ item a.now k) }
{
    for (k, z) in out.iter_mut().enumerate() {
        *z += a[k];
    }
}

// The residuals of the levels v, added to out.
fn add(v: &[i32], out: &mut [i32])
    requires { Sixteen 262144 v.now × Sixteen 1048576 out.old }
    ensures { out.new ≡ tab 16 (λ k. item out.old k +ℤ item (iwht v.now) k) }
{
    let mut more = [0i32; 16];
    wht::residuals(v, &mut more);
    plus(&more, out);
}

// Step j, added to the sum of those before it that went into step h, if it went there too.
fn member(l: &[i32], o: &[u16], h: usize, n: usize, j: usize, out: &mut [i32])
    requires j_lt_n { (j < n) × (n ≤ 4096) × (length l.now ≡ 65536) × (length o.now ≡ 4096) }
    requires sums { Sums (Owners·owner o.now) l.now h n × (out.old ≡ sum_of (Owners·owner o.now) l.now j h) }
    ensures { out.new ≡ sum_of (Owners·owner o.now) l.now (suc j) h }
{
    if owner(o, j) != h {
        return;
    }
    let a = 16 * j;
    let e = a + 16;
    add(&l[a..e], out);
}

// The residuals of those of the first n steps that went into step h, summed into out, which is all 0.
fn gather(l: &[i32], o: &[u16], h: usize, n: usize, out: &mut [i32])
    requires n_bound { (n ≤ 4096) × (length l.now ≡ 65536) × (length o.now ≡ 4096) }
    requires sums { Sums (Owners·owner o.now) l.now h n × (out.old ≡ tab 16 (λ _. pos 0)) }
    ensures { out.new ≡ sum_of (Owners·owner o.now) l.now n h }
{
    for j in 0..n {
        member(l, o, h, n, j, out);
    }
}

// Whether step j stands for a step of the folded list that shares a sample with the block at a row and column.
fn standing(s: &[u32], o: &[u16], row: usize, column: usize, j: usize) -> bool
    requires { (j < 4096) × (length s.now ≡ 16385) × (length o.now ≡ 4096) }
    ensures { result ≡ eqb (Owners·owner o.now j) j && touches row column (mark_at s.now j) }
{
    let b = 4 * j + 1;
    owner(o, j) == j && shares(row, column, word(s, b + 2), word(s, b + 3))
}

// The latest of the first n that does.
fn partner(s: &[u32], o: &[u16], row: usize, column: usize, n: usize) -> Option<usize>
    requires { (n ≤ 4096) × (length s.now ≡ 16385) × (length o.now ≡ 4096) }
    ensures { counted result ≡ Owners·partner (Owners·owner o.now) s.now row column n }
{
    for i in (0..n).rev() {
        if standing(s, o, row, column, i) {
            return Some(i);
        }
    }
    None
}

// Whether the steps i and j are on one block, at one depth.
fn alike(s: &[u32], i: usize, j: usize) -> bool
    requires { (i < 4096) × (j < 4096) × (length s.now ≡ 16385) }
    ensures { result ≡ alike_at s.now i j }
{
    let a = 4 * i + 1;
    let b = 4 * j + 1;
    word(s, a + 1) == word(s, b + 1)
        && (word(s, a + 2) == word(s, b + 2) && word(s, a + 3) == word(s, b + 3))
}

// Whether the sixteen numbers are at most 2^depth - 1 in size.
fn in_size(g: &[i32], depth: u32) -> bool
    requires { (depth ≤ 12) × (length g.now ≡ 16) }
    ensures { result ≡ sizes depth g.now }
{
    let hi = ranges::high_end(depth);
    let lo = 0 - hi;
    wht::find_bad(g, lo, hi).is_none()
}

// Whether the sixteen numbers are 0.
fn is_zero(g: &[i32]) -> bool
    requires { length g.now ≡ 16 }
    ensures { result ≡ is_zero g.now }
{
    wht::find_bad(g, 0, 0).is_none()
}

// Step i goes into step h; where their sum is 0, both are gone.
fn settle(i: usize, h: usize, gone: bool, o: &mut [u16])
    requires { (i < 4096) × (h < i) × (length o.old ≡ 4096) }
    ensures { o.new ≡ cond gone (set (set o.old i h) h 4096) (set o.old i h) }
{
    o[i] = h as u16;
    if gone {
        o[h] = 4096;
    }
}

// The residuals of step i and of those before it that went into step h, summed into out, which is all 0.
fn sum(l: &[i32], o: &[u16], i: usize, h: usize, out: &mut [i32])
    requires i_bound { (i < 4096) × (length l.now ≡ 65536) × (length o.now ≡ 4096) × Sixteen 262144 (levels_at l.now i) }
    requires sums { Sums (Owners·owner o.now) l.now h i × (out.old ≡ tab 16 (λ _. pos 0)) }
    ensures { out.new ≡ tab 16 (λ k. total (Owners·owner o.now) l.now h i k +ℤ item (iwht (levels_at l.now i)) k) }
{
    gather(l, o, h, i, out);
    let a = 16 * i;
    let e = a + 16;
    add(&l[a..e], out);
}

// Step i goes into step h, its partner; false where their sum leaves its range.
// Kept: a plain yes or no here and in the two below (record `Placed`): nothing goes with it, and the call has one refusal for it.
fn join(s: &[u32], l: &[i32], i: usize, h: usize, o: &mut [u16]) -> bool
    requires listed { Listed s.now l.now (suc i) × Owned s.now l.now o.old i × (pass_fair (entries s.now l.now i) ≡ true) }
    requires h_lt_i { (h < i) × (Owners·partner (Owners·owner o.old) s.now (Remaining·word s.now i 2) (Remaining·word s.now i 3) i ≡ suc h) × (alike_at s.now i h ≡ true) }
    ensures { Placed s.now l.now o.new (suc i) result }
{
    let mut g = [0i32; 16];
    sum(l, o, i, h, &mut g);
    let b = 4 * i + 1;
    if !in_size(&g, s[b + 1]) {
        return false;
    }
    settle(i, h, is_zero(&g), o);
    true
}

// Step i goes into its partner, if it has one, or stays; false where a sum leaves its range.
fn place(s: &[u32], l: &[i32], i: usize, o: &mut [u16]) -> bool
    requires { Listed s.now l.now (suc i) × Owned s.now l.now o.old i × (pass_fair (entries s.now l.now i) ≡ true) }
    ensures { Placed s.now l.now o.new (suc i) result }
{
    let b = 4 * i + 1;
    let Some(h) = partner(s, o, word(s, b + 2), word(s, b + 3), i) else {
        o[i] = i as u16;
        return true;
    };
    if !alike(s, i, h) {
        o[i] = i as u16;
        return true;
    }
    join(s, l, i, h, o)
}

// The owners of n steps; false where a sum leaves its range.
pub fn owners(s: &[u32], l: &[i32], n: usize, o: &mut [u16]) -> bool
    requires { Listed s.now l.now n × (length o.old ≡ 4096) }
    ensures { Placed s.now l.now o.new n result }
{
    for i in 0..n {
        if !place(s, l, i, o) {
            return false;
        }
    }
    true
}

// The levels of sixteen residuals.
fn levels_of(g: &[i32], out: &mut [i32])
    requires { Sixteen 1048576 g.now × (length out.old ≡ 16) }
    ensures { out.new ≡ fwht g.now }
{
    let m = wht::slices::loaded(g);
    let r = wht::blocks::forward44(m);
    wht::slices::stored(out, r);
}

// The levels of the sum of those steps that went into step h, at place m.
fn put_sum(l: &mut [i32], o: &[u16], n: usize, h: usize, m: usize)
    requires { (m < 4096) × (n ≤ 4096) × (length l.old ≡ 65536) × (length o.now ≡ 4096) × Sums (Owners·owner o.now) l.old h n }
    ensures { l.new ≡ put_on (16 * m) (fwht (sum_of (Owners·owner o.now) l.old n h)) 16 l.old }
{
    let mut g = [0i32; 16];
    gather(l, o, h, n, &mut g);
    let mut v = [0i32; 16];
    levels_of(&g, &mut v);
    list::put_levels(l, m, &v);
}

// The mark of step h with the number m + 1, at place m.
fn put_numbered(s: &mut [u32], h: usize, m: usize)
    requires { (m < 4096) × (h < 4096) × (length s.old ≡ 16385) × (Remaining·word s.old h 2 < 2 ^ 32) × (Remaining·word s.old h 3 < 2 ^ 32) }
    ensures { s.new ≡ put_mark m (mark (m + 1) (Remaining·word s.old h 1) (Remaining·word s.old h 2) (Remaining·word s.old h 3)) s.old }
{
    let b = 4 * h + 1;
    let depth = s[b + 1];
    let row = word(s, b + 2);
    let column = word(s, b + 3);
    let q = m + 1;
    list::put_mark(s, m, q as u32, depth, row, column);
}

// Step h, if it stands for one of the folded list, at place m; and the next place.
fn put_next(s: &mut [u32], l: &mut [i32], o: &[u16], n: usize, h: usize, m: usize) -> usize
    requires { Puts s.old l.old o.now n h m }
    ensures { Put s.old l.old o.now n h m s.new l.new result (eqb (Owners·owner o.now h) h) }
{
    if owner(o, h) != h {
        return m;
    }
    put_numbered(s, h, m);
    put_sum(l, o, n, h, m);
    m + 1
}

// The folded list, by its owners, put in the place of the list. What stood behind it stays.
pub fn put_back(s: &mut [u32], l: &mut [i32], o: &[u16], n: usize)
    requires { Listed s.old l.old n × Owned s.old l.old o.now n }
    ensures { (s.new ≡ steps_folded (one_pass (entries s.old l.old n)) s.old)
        × (l.new ≡ levels_folded (one_pass (entries s.old l.old n)) l.old) }
{
    let mut m = 0;
    for h in 0..n {
        m = put_next(s, l, o, n, h, m);
    }
    s[0] = m as u32;
}
