// The DCT of numbers of which at most four are live, by the head of its table.
ghost use Rattle.std.specs.Prelude.{◌≡◌, ◌+◌, ◌^◌, ◌≤◌, pos, nat_abs, ◌+ℤ◌, ◌*ℤ◌, length, get_or};
ghost use Rattle.whole.specs.Sums.{dense_c, Within};
ghost use Rattle.tables.specs.Dense.{first_of, dct_table};
ghost use Rattle.tables.specs.Head.{HeadTable};

// Number i, or 0 where it is not live.
fn upto(c: &[i32], i: usize, live: usize) -> i32
    requires { live ≤ length c.now }
    ensures { result ≡ get_or (first_of live c.now) i (pos 0) }
{
    if i < live { c[i] } else { 0 }
}

// Two inputs times their weights.
fn two(x: i32, u: i8, y: i32, v: i8) -> i32
    requires { (nat_abs x ≤ 2 ^ 19) × (nat_abs y ≤ 2 ^ 19) }
    ensures { (result ≡ x *ℤ u +ℤ y *ℤ v) × (nat_abs result ≤ 2 ^ 27) }
{
    x * i32::from(u) + y * i32::from(v)
}

// The DCT of 2h numbers of which at most four are live, by the head of its table: the even inputs and the odd ones, joined.
pub fn head(c: &mut [i32], t: &[i8], h: usize, live: usize)
    requires { HeadTable h t.now × (live ≤ 4) × ((live ≤ h + h) × ((length (first_of live c.old) ≡ h + h) × Within (2 ^ 19) (first_of live c.old))) }
    ensures { c.new ≡ dense_c (h + h) (dct_table (h + h)) (first_of live c.old) }
{
    let c0 = upto(&c[..], 0, live);
    let c1 = upto(&c[..], 1, live);
    let c2 = upto(&c[..], 2, live);
    let c3 = upto(&c[..], 3, live);
    let n = h + h;
    for m in 0..h {
        let even = two(c0, 64, c2, t[h + m]);
        let odd = two(c1, t[m], c3, t[n + m]);
        c[m] = even + odd;
        c[n - 1 - m] = even - odd;
    }
}
