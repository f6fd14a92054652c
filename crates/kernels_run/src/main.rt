// Runs every kernel through `inv_tx1d`, length by length and code by code, on six lists at the ends of the range and between, all of
// their numbers live, and on one of them with every smaller count of live numbers; writes what each leaves. The file stdout has what
// the unchanged Rust leaves of the same lists, with zeros in the place of the numbers that are not live; tools/record-kernels writes it.
#![tactic(auto)]

ghost use Rattle.std.specs.Prelude.{◌≡◌, true, ℕ, ◌^◌, ◌≤◌, ◌<◌, nat_abs, length};
ghost use Rattle.whole.specs.Sums.{Within};
ghost use Rattle.tables.specs.Sizes.{cut};
ghost use Rattle.tables.specs.Kinds.{has_kind};

use kernels::tx1d::inv_tx1d;
use lines::line;
use std::io;
use tables::size::cut_of;

// Where number i of list p stands in the range, counted from its lower end: all at the top, all at the bottom, by turns, and mixed.
fn height(p: usize, i: usize) -> usize
    requires { i < 32 }
    ensures { result < 2 ^ 20 }
{
    match p {
        0 => 1048575,
        1 => 0,
        2 => i % 2 * 1048575,
        3 => (i + 1) % 2 * 1048575,
        4 => i * 392081 % 1048576,
        _ => (i + 7) * 655357 % 1048576,
    }
}

// Number i of list p, from -2^19 to 2^19 - 1.
fn number(p: usize, i: usize) -> i32
    requires { i < 32 }
    ensures { nat_abs result ≤ 2 ^ 19 }
{
    height(p, i) as i32 - 524288
}

// List p.
fn fill(c: &mut [i32], p: usize)
    requires { length c.old ≤ 32 }
    ensures { Within (2 ^ 19) c.new }
{
    for (i, x) in c.iter_mut().enumerate() {
        *x = number(p, i);
    }
}

// What the kernel of length n and kind code leaves of the first live numbers of list p.
fn run(
    rt: &impl Print,
    c: &mut [i32],
    n: usize,
    code: usize,
    p: usize,
    live: usize,
) -> io::Result<()>
    requires { (has_kind n code ≡ true) × (length c.old ≡ cut n) × (live ≤ cut n) }
{
    fill(c, p);
    inv_tx1d(c, n, code, live);
    line(rt, c)
}

// All lists, all of their numbers live.
fn lists(rt: &impl Print, n: usize, code: usize) -> io::Result<()>
    requires { has_kind n code ≡ true }
{
    let m = cut_of(n);
    let mut c = [0i32; 32];
    let part = &mut c[..m];
    for p in 0..6 {
        run(rt, part, n, code, p, m)?;
    }
    Ok(())
}

// The last list, with every smaller count of live numbers.
fn counts(rt: &impl Print, n: usize, code: usize) -> io::Result<()>
    requires { has_kind n code ≡ true }
{
    let m = cut_of(n);
    let mut c = [0i32; 32];
    let part = &mut c[..m];
    for live in 0..m {
        run(rt, part, n, code, 5, live)?;
    }
    Ok(())
}

// All kinds of length n, of which there are count.
fn kinds(rt: &impl Print, n: usize, count: usize) -> io::Result<()>
    requires { (k : ℕ) → k < count → has_kind n k ≡ true }
{
    for code in 0..count {
        lists(rt, n, code)?;
        counts(rt, n, code)?;
    }
    Ok(())
}

fn main(rt: HostRuntime) -> io::Result<()> {
    kinds(&rt, 4, 4)?;
    kinds(&rt, 8, 6)?;
    kinds(&rt, 16, 6)?;
    kinds(&rt, 32, 2)?;
    kinds(&rt, 64, 1)
}
