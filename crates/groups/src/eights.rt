// Eight lanes: lines through a kernel in records of eight.
ghost use Rattle.std.specs.Prelude.{◌≡◌, true, ℕ, ◌+◌, ◌*◌, ◌%◌, ◌^◌, ◌≤◌, ◌<◌, pos, nat_abs, length, get_or};
ghost use Rattle.whole.specs.Sums.{tab};
ghost use Rattle.whole.specs.Lanes.{spot, Places};
ghost use Rattle.whole.specs.Grid.{rows_by};
ghost use Rattle.tables.specs.Sizes.{cut};
ghost use Rattle.tables.specs.Kinds.{has_kind};
ghost use Rattle.tables.specs.Dense.{first_dense};

use lanes::Lane8;

// The lines of a group, of m numbers, of which the first live count, through the kernel of length n and kind code: eight, or as many as are left.
pub fn through(
    work: &mut [i32],
    base: usize,
    p: usize,
    s: usize,
    m: usize,
    n: usize,
    code: usize,
    live: usize,
    lines: usize,
)
    requires code_value { (has_kind n code ≡ true) × (cut n ≡ m) × (live ≤ m) × Places lines m (spot base p s) (length work.old) × (lines ≤ 8) × (0 < lines) }
    requires by_index { (k i : ℕ) → k < lines → i < live → nat_abs (get_or work.old (spot base p s k i) (pos 0)) ≤ 2 ^ 19 }
    ensures by_index_2 { (k i : ℕ) → k < lines → i < m → get_or work.new (spot base p s k i) (pos 0) ≡ get_or (first_dense n code live (tab m (λ y. get_or work.old (spot base p s k y) (pos 0)))) i (pos 0) }
    ensures by_index_3 { (z : ℕ) → ((k i : ℕ) → k < lines → i < m → z ≡ spot base p s k i → ⊥) → get_or work.new z (pos 0) ≡ get_or work.old z (pos 0) }
{
    crate::through::<Lane8>(work, base, p, s, m, n, code, live, lines);
}

// Each of count lines of m numbers, of which the first live count, through the kernel of length n and kind code, eight at a time; of the last group four may be there.
pub fn lane_pass(
    work: &mut [i32],
    count: usize,
    p: usize,
    s: usize,
    m: usize,
    n: usize,
    code: usize,
    live: usize,
)
    requires code_value { (has_kind n code ≡ true) × (cut n ≡ m) × (count % 4 ≡ 0) × (count ≤ 32) × (s ≤ 32) × (live ≤ m) × Places count m (λ k x. k * s + x * p) (length work.old) }
    requires by_index { (k x : ℕ) → k < count → x < live → nat_abs (get_or work.old (k * s + x * p) (pos 0)) ≤ 2 ^ 19 }
    ensures { (k x : ℕ) → k < count → x < m → get_or work.new (k * s + x * p) (pos 0) ≡ rows_by (first_dense n code live) m (λ k x. get_or work.old (k * s + x * p) (pos 0)) k x }
{
    crate::lane_pass::<Lane8>(work, count, p, s, m, n, code, live);
}
