// Sixteen numbers of a slice, row by row, as a block, and back.
ghost use Rattle.std.specs.Prelude.{◌≡◌, ◌+◌, ◌≤◌, length};
ghost use Rattle.wht.specs.Wht.{row_from, block, flat};
ghost use Rattle.wht.specs.Stores.{put4};

use crate::blocks::{Block, Quad};

// The four numbers from index at on.
fn load4(l: &[i32], at: usize) -> Quad
    requires { at + 4 ≤ length l.now }
    ensures { result ≡ row_from l.now at }
{
    Quad(l[at], l[at + 1], l[at + 2], l[at + 3])
}

// Sixteen numbers as a block.
pub fn loaded(l: &[i32]) -> Block
    requires { length l.now ≡ 16 }
    ensures { result ≡ block l.now }
{
    let a = load4(l, 0);
    let b = load4(l, 4);
    let c = load4(l, 8);
    let d = load4(l, 12);
    Block(a, b, c, d)
}

// Four numbers into the places from at on.
fn store4(out: &mut [i32], at: usize, q: Quad)
    requires { at + 4 ≤ length out.old }
    ensures { out.new ≡ put4 out.old at q }
{
    let a = q.0;
    let b = q.1;
    let c = q.2;
    let d = q.3;
    out[at] = a;
    out[at + 1] = b;
    out[at + 2] = c;
    out[at + 3] = d;
}

// A block as sixteen numbers.
pub fn stored(out: &mut [i32], m: Block)
    requires { length out.old ≡ 16 }
    ensures { out.new ≡ flat m }
{
    let p = m.0;
    let q = m.1;
    let r = m.2;
    let s = m.3;
    store4(out, 0, p);
    store4(out, 4, q);
    store4(out, 8, r);
    store4(out, 12, s);
}
