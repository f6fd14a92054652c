// Steps put at the list's end, and taken out of it.
ghost use Rattle.std.specs.Prelude.{◌≡◌, ◌+◌, ◌*◌, ◌-◌, ◌^◌, ◌≤◌, ◌<◌, length};
ghost use Rattle.remain.specs.Remaining.{mark, count, put_mark, put_on};
ghost use Rattle.remain.specs.Without.{slid, steps_without, levels_without};

// The four numbers of step i.
pub fn put_mark(s: &mut [u32], i: usize, number: u32, depth: u32, row: usize, column: usize)
    requires { (i < 4096) × (length s.old ≡ 16385) × (row < 2 ^ 32) × (column < 2 ^ 32) }
    ensures { s.new ≡ put_mark i (mark number depth row column) s.old }
{
    let b = 4 * i + 1;
    s[b] = number;
    s[b + 1] = depth;
    s[b + 2] = row as u32;
    s[b + 3] = column as u32;
}

// The sixteen levels of step i.
pub fn put_levels(l: &mut [i32], i: usize, level: &[i32])
    requires { (i < 4096) × (length l.old ≡ 65536) × (length level.now ≡ 16) }
    ensures { l.new ≡ put_on (16 * i) level.now 16 l.old }
{
    let a = 16 * i;
    let e = a + 16;
    whole::copy(&mut l[a..e], level);
}

// The items from place a + N on, up to place e + N, move down by N.
fn slide<T: Copy, const N: usize>(s: &mut [T], a: usize, e: usize)
    requires { (a ≤ e) × (e + N ≤ length s.old) }
    ensures { (z : T) → s.new ≡ slid z a e N s.old }
{
    s.copy_within(a + N..e + N, a);
}

// Step i of n is taken out of the list.
pub fn remove(s: &mut [u32], l: &mut [i32], i: usize, n: usize)
    requires { (i < n) × (n ≤ 4096) × (n ≡ count s.old) × (length s.old ≡ 16385) × (length l.old ≡ 65536) }
    ensures { (s.new ≡ steps_without i s.old) × (l.new ≡ levels_without i n l.old) }
{
    let m = n - 1;
    slide::<u32, 4>(s, 4 * i + 1, 4 * m + 1);
    slide::<i32, 16>(l, 16 * i, 16 * m);
    s[0] = m as u32;
}
