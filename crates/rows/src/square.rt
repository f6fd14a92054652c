// The product of a table and as many numbers as it has rows, in place.
ghost use Rattle.std.specs.Prelude.{◌≡◌, ◌≤◌, pos, length, get_or};
ghost use Rattle.whole.specs.Sums.{tab, dense, flipped};
ghost use Rattle.rows.specs.Rows.{Rows};
ghost use Rattle.rows.specs.Short.{AllShort};

use crate::short::{long_ones, shorten};
use crate::sums::products;

// Row i of the table times the numbers in the place of number i.
fn rows(c: &mut [i32], mat: &[i8])
    requires { (length c.old ≤ 16) × Rows mat.now c.old }
    ensures { c.new ≡ dense (length c.old) mat.now c.old }
{
    let n = c.len();
    let mut s = [0i32; 16];
    whole::copy(&mut s[..n], &c[..]);
    products(mat, &s[..n], c);
}

// The same of sixteen numbers that 16 bits hold.
fn short_rows(c: &mut [i32], mat: &[i8])
    requires { (length c.old ≡ 16) × Rows mat.now c.old × AllShort c.old }
    ensures { c.new ≡ dense (length c.old) mat.now c.old }
{
    let mut s = [0i16; 16];
    shorten(&mut s, &c[..]);
    products(mat, &s, c);
}

// The same of any sixteen numbers: at depth 8 the clamp makes them short.
pub fn rows16(c: &mut [i32], mat: &[i8])
    requires { (length c.old ≡ 16) × Rows mat.now c.old }
    ensures { c.new ≡ dense (length c.old) mat.now c.old }
{
    if long_ones(&c[..]) == 0 {
        short_rows(c, mat);
    } else {
        rows(c, mat);
    }
}

// The same of at most sixteen numbers. A length with an arm of its own is known to the compiler, which then writes out the sums.
pub fn rows_of(c: &mut [i32], mat: &[i8])
    requires { (length c.old ≤ 16) × Rows mat.now c.old }
    ensures { c.new ≡ dense (length c.old) mat.now c.old }
{
    match c.len() {
        4 => rows(c, mat),
        8 => rows(c, mat),
        16 => rows16(c, mat),
        _ => rows(c, mat),
    }
}

// The numbers from the last to the first where flip is set, else as they are.
pub fn turn(c: &mut [i32], flip: bool)
    ensures { c.new ≡ tab (length c.old) (λ k. get_or c.old (flipped flip (length c.old) k) (pos 0)) }
{
    if flip {
        c.reverse();
    }
}
