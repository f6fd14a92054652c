// Blocks of four rows of four numbers, by value: the two transforms.
ghost use Rattle.std.specs.Prelude.{◌≡◌};
ghost use Rattle.wht.specs.Wht.{fore, back, swap, each, turn, fore44, back44};
ghost use Rattle.wht.specs.Bounds.{Sized, Sizes};

// Four numbers.
#[derive(Clone, Copy)]
pub struct Quad(pub i32, pub i32, pub i32, pub i32);

// Four rows.
#[derive(Clone, Copy)]
pub struct Block(pub Quad, pub Quad, pub Quad, pub Quad);

// The forward transform of four numbers.
fn forward4(o0: i32, o1: i32, o2: i32, o3: i32) -> Quad
    requires { Sized 2097152 (o0, o1, o2, o3) }
    ensures { result ≡ fore (o0, o1, o2, o3) }
{
    let e = (o0 + o1 + o2 - o3) >> 1;
    Quad(o0 + o1 + o2 - e, e - o2, o3 - o2 + e - o1, e - o1)
}

// The same of a row.
fn forward_row(q: Quad) -> Quad
    requires { Sized 2097152 q }
    ensures { result ≡ fore q }
{
    forward4(q.0, q.1, q.2, q.3)
}

// Each row through the forward transform of four.
fn forward_rows(m: Block) -> Block
    requires { Sizes 2097152 m }
    ensures { result ≡ each fore m }
{
    let p = m.0;
    let q = m.1;
    let r = m.2;
    let s = m.3;
    let a = forward_row(p);
    let b = forward_row(q);
    let c = forward_row(r);
    let d = forward_row(s);
    Block(a, b, c, d)
}

// Rows and columns exchanged.
fn turned(m: Block) -> Block
    ensures { result ≡ turn m }
{
    let p = m.0;
    let q = m.1;
    let r = m.2;
    let s = m.3;
    Block(
        Quad(p.0, q.0, r.0, s.0),
        Quad(p.1, q.1, r.1, s.1),
        Quad(p.2, q.2, r.2, s.2),
        Quad(p.3, q.3, r.3, s.3),
    )
}

// The last two columns exchanged.
fn swapped(m: Block) -> Block
    ensures { result ≡ each swap m }
{
    let p = m.0;
    let q = m.1;
    let r = m.2;
    let s = m.3;
    Block(
        Quad(p.0, p.1, p.3, p.2),
        Quad(q.0, q.1, q.3, q.2),
        Quad(r.0, r.1, r.3, r.2),
        Quad(s.0, s.1, s.3, s.2),
    )
}

// Each row through the inverse transform of four: the forward one, with the last two numbers exchanged before and after it.
fn inverse_rows(m: Block) -> Block
    requires { Sizes 2097152 m }
    ensures { result ≡ each back m }
{
    let p = swapped(m);
    let q = forward_rows(p);
    swapped(q)
}

// Columns, then rows.
pub fn forward44(m: Block) -> Block
    requires { Sizes 1048576 m }
    ensures { result ≡ fore44 m }
{
    let p = turned(m);
    let q = forward_rows(p);
    let r = turned(q);
    forward_rows(r)
}

// Rows, then columns.
pub fn inverse44(m: Block) -> Block
    requires { Sizes 1048576 m }
    ensures { result ≡ back44 m }
{
    let p = inverse_rows(m);
    let q = turned(p);
    let r = inverse_rows(q);
    turned(r)
}
