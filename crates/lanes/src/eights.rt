// Eight lanes: the kernels on 32 records of eight, by value.
ghost use Rattle.std.specs.Prelude.{◌≡◌, true, ℕ, ◌≤◌, nat_abs, take};
ghost use Rattle.whole.specs.Lanes.{col};
ghost use Rattle.tables.specs.Sizes.{cut};
ghost use Rattle.tables.specs.Kinds.{has_kind};
ghost use Rattle.tables.specs.Dense.{first_of, multiplied, dense_of};
ghost use Rattle.lanes.specs.View.{lane, Live, Through};

use crate::Lane8;

// The identity: each of the first live records times k, the others counting as 0.
pub fn g_id(c: [Lane8; 32], n: usize, k: i32, live: usize) -> [Lane8; 32]
    requires { (n ≤ 32) × (nat_abs k ≤ 512) × Live lane n live c }
    ensures { Through lane n (λ xs. multiplied n k (first_of live xs)) c result }
{
    crate::g_id(c, n, k, live)
}

// The kernel of length n and kind code, in every lane, on the first live records: the source's pick_lane.
pub fn lane8_tx1d(c: [Lane8; 32], n: usize, code: usize, live: usize) -> [Lane8; 32]
    requires code_value { has_kind n code ≡ true }
    requires live { Live lane (cut n) live c }
    ensures { (k : ℕ) → take (cut n) (col lane k result) ≡ dense_of n code (first_of live (take (cut n) (col lane k c))) }
{
    crate::lane_tx1d(c, n, code, live)
}
