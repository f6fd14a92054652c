// Four lanes: lines through a kernel in records of four.
ghost use Rattle.std.specs.Prelude.{◌≡◌, true, ℕ, ◌+◌, ◌*◌, ◌%◌, ◌^◌, ◌≤◌, ◌<◌, pos, nat_abs, length, get_or};
ghost use Rattle.whole.specs.Lanes.{Places};
ghost use Rattle.whole.specs.Grid.{rows_by};
ghost use Rattle.tables.specs.Sizes.{cut};
ghost use Rattle.tables.specs.Kinds.{has_kind};
ghost use Rattle.tables.specs.Dense.{first_dense};

use lanes::Lane4;

// Each of count lines of m numbers, of which the first live count, through the kernel of length n and kind code, four at a time.
pub fn lane_pass(
    work: &mut [i32],
    count: usize,
    p: usize,
    s: usize,
    m: usize,
    n: usize,
    code: usize,
    live: usize,
)
    requires code_value { (has_kind n code ≡ true) × (cut n ≡ m) × (count % 4 ≡ 0) × (count ≤ 32) × (s ≤ 32) × (live ≤ m) × Places count m (λ k x. k * s + x * p) (length work.old) }
    requires by_index { (k x : ℕ) → k < count → x < live → nat_abs (get_or work.old (k * s + x * p) (pos 0)) ≤ 2 ^ 19 }
    ensures { (k x : ℕ) → k < count → x < m → get_or work.new (k * s + x * p) (pos 0) ≡ rows_by (first_dense n code live) m (λ k x. get_or work.old (k * s + x * p) (pos 0)) k x }
{
    crate::lane_pass::<Lane4>(work, count, p, s, m, n, code, live);
}
