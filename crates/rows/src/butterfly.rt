// Even and odd inputs, and the butterfly that joins their halves.
ghost use Rattle.std.specs.Prelude.{◌≡◌, ◌+◌, ◌≤◌, pos, length, get_or, take};
ghost use Rattle.whole.specs.Sums.{tab, dense};
ghost use Rattle.whole.specs.Parts.{joined, JoinRoom};
ghost use Rattle.rows.specs.Rows.{Rows};

use crate::sums::products;

// The odd inputs of s.
pub fn odds(s: &[i32], out: &mut [i32])
    requires { length s.now ≡ length out.old + length out.old }
    ensures { out.new ≡ tab (length out.old) (λ i. get_or s.now (i + i + 1) (pos 0)) }
{
    for (i, odd) in out.iter_mut().enumerate() {
        *odd = s[i + i + 1];
    }
}

// The even inputs, moved to the front.
pub fn evens(c: &mut [i32], n: usize)
    requires { length c.old ≡ n + n }
    ensures { take n c.new ≡ tab n (λ i. get_or c.old (i + i) (pos 0)) }
{
    for i in 0..n {
        c[i] = c[i + i];
    }
}

// The butterfly: out's first half holds the even half; sums go there, differences into the second half, from its end.
pub fn fold(out: &mut [i32], odd: &[i32])
    requires out_len { length out.old ≡ length odd.now + length odd.now }
    requires join_room { JoinRoom (length odd.now) out.old odd.now }
    ensures { out.new ≡ joined (length odd.now) out.old odd.now }
{
    let h = odd.len();
    let n = h + h;
    for k in 0..h {
        let even = out[k];
        out[k] = even + odd[k];
        out[n - 1 - k] = even - odd[k];
    }
}

// The butterfly of the even half, which out holds, with the products of the table's rows and the odd inputs.
pub fn join(out: &mut [i32], odd: &[i32], mat: &[i8])
    requires odd_len_bound { (length odd.now ≤ 16) × (length out.old ≡ length odd.now + length odd.now) × Rows mat.now odd.now }
    requires join_room { JoinRoom (length odd.now) out.old (dense (length odd.now) mat.now odd.now) }
    ensures { out.new ≡ joined (length odd.now) out.old (dense (length odd.now) mat.now odd.now) }
{
    let n = odd.len();
    let mut sums = [0i32; 16];
    products(mat, odd, &mut sums[..n]);
    fold(out, &sums[..n]);
}
