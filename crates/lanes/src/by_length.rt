// The kernels of each length, by kind.
ghost use Rattle.std.specs.Prelude.{◌≡◌, true, cond, eqb, ℕ, ◌^◌, ◌≤◌, nat_abs, length};
ghost use Rattle.whole.specs.Sums.{Within};
ghost use Rattle.whole.specs.Lanes.{col};
ghost use Rattle.tables.specs.Dst.{adst16, flipadst16, ddt16};
ghost use Rattle.tables.specs.Kinds.{has_kind};
ghost use Rattle.tables.specs.Dense.{multiplied, dense_of};
ghost use Rattle.lanes.specs.View.{Ready, Across};

use crate::dst::g_dst;
use crate::{Lanes, dct};
use tables::dst;

// Each of the n records times f.
pub fn times<L: Lanes>(c: &[L], e: &mut [L], f: i32, n: usize)
    requires { (n ≤ length c.now) × (n ≤ length e.old) × (nat_abs f ≤ 512) × ((k : ℕ) → Within (2 ^ 19) (col L.lane k c.now)) }
    ensures { Across L.lane n (multiplied n f) c.now e.new }
{
    for i in 0..n {
        e[i] = c[i].mul_n(f);
    }
}

// The kernels of 4.
pub fn kernel4<L: Lanes>(xs: &[L], e: &mut [L], code: usize)
    requires { (has_kind 4 code ≡ true) × Ready L.lane 4 xs.now × (4 ≤ length e.old) }
    ensures { Across L.lane 4 (dense_of 4 code) xs.now e.new }
{
    match code {
        0 => dct::g_dct4(xs, e),
        1 => times(xs, e, 128, 4),
        2 => g_dst(xs, 4, &dst::ADST4_KERNEL, false, e),
        _ => g_dst(xs, 4, &dst::FLIPADST4_KERNEL, false, e),
    }
}

// The kernels of 8.
pub fn kernel8<L: Lanes>(xs: &[L], e: &mut [L], code: usize)
    requires { (has_kind 8 code ≡ true) × Ready L.lane 8 xs.now × (8 ≤ length e.old) }
    ensures { Across L.lane 8 (dense_of 8 code) xs.now e.new }
{
    match code {
        0 => dct::g_dct8(xs, e),
        1 => times(xs, e, 181, 8),
        2 => g_dst(xs, 8, &dst::ADST8_KERNEL, false, e),
        3 => g_dst(xs, 8, &dst::ADST8_KERNEL, true, e),
        4 => g_dst(xs, 8, &dst::DDT8_KERNEL, false, e),
        _ => g_dst(xs, 8, &dst::DDT8_KERNEL, true, e),
    }
}

// The table of an ADST or DDT of 16.
fn table16(code: usize) -> &'static [i8]
    requires { (2 ≤ code) × (code ≤ 5) }
    ensures { result.now ≡ cond (eqb code 2) adst16 (cond (eqb code 3) flipadst16 ddt16) }
{
    match code {
        2 => &dst::ADST16_KERNEL,
        3 => &dst::FLIPADST16_KERNEL,
        _ => &dst::DDT16_KERNEL,
    }
}

// The kernels of 16. The dense ones are one call: with a call for each table the compiler writes out all 256 products of each, and that is slower.
pub fn kernel16<L: Lanes>(xs: &[L], e: &mut [L], code: usize)
    requires { (has_kind 16 code ≡ true) × Ready L.lane 16 xs.now × (16 ≤ length e.old) }
    ensures { Across L.lane 16 (dense_of 16 code) xs.now e.new }
{
    match code {
        0 => dct::g_dct16(xs, e),
        1 => times(xs, e, 256, 16),
        _ => g_dst(xs, 16, table16(code), code == 5, e),
    }
}

// The kernels of 32.
pub fn kernel32<L: Lanes>(xs: &[L], e: &mut [L], code: usize)
    requires { (has_kind 32 code ≡ true) × Ready L.lane 32 xs.now × (32 ≤ length e.old) }
    ensures { Across L.lane 32 (dense_of 32 code) xs.now e.new }
{
    match code {
        0 => dct::g_dct32(xs, e),
        _ => times(xs, e, 362, 32),
    }
}
