// Sums of products, and zeros behind the live inputs.
ghost use Rattle.std.specs.Prelude.{◌≡◌, ◌^◌, ◌<◌, ℤ, map, length};
ghost use Rattle.whole.specs.Sums.{dense, dot_z, spread};
ghost use Rattle.tables.specs.Dense.{first_of};
ghost use Rattle.rows.specs.Rows.{Rows};

// A number of a sum of products. Of numbers that 16 bits hold the compiler takes eight at a time.
pub trait Number: Copy {
    ghost value: { Self → ℤ };

    fn wide(self) -> i32
        ensures { result ≡ value self };
}

impl Number for i32 {
    ghost value = { λ z. z };

    fn wide(self) -> i32 {
        self
    }
}

impl Number for i16 {
    ghost value = { λ z. z };

    fn wide(self) -> i32 {
        i32::from(self)
    }
}

// The sum of the products at equal places.
pub fn dot<T: Number>(mat: &[i8], v: &[T]) -> i32
    requires { (length mat.now ≡ length v.now) × (spread mat.now (map T.value v.now) < 2 ^ 31) }
    ensures { result ≡ dot_z mat.now (map T.value v.now) }
{
    let mut acc = 0;
    for j in 0..mat.len() {
        acc += i32::from(mat[j]) * v[j].wide();
    }
    acc
}

// Each row of the table times the inputs.
pub fn products<T: Number>(mat: &[i8], xs: &[T], out: &mut [i32])
    requires { (length out.old ≡ length xs.now) × Rows mat.now (map T.value xs.now) }
    ensures { out.new ≡ dense (length xs.now) mat.now (map T.value xs.now) }
{
    let n = xs.len();
    for (i, sum) in out.iter_mut().enumerate() {
        let a = i * n;
        *sum = dot(&mat[a..a + n], xs);
    }
}

// Zero in the place of every number after the first live.
// Kept: a `for`. `c[live..].fill(0)` proves too, and takes 4 to 9 instructions more in each kernel (61 in place of 57 in the DCT of 4).
pub fn clear(c: &mut [i32], live: usize)
    ensures { c.new ≡ first_of live c.old }
{
    for i in live..c.len() {
        c[i] = 0;
    }
}
