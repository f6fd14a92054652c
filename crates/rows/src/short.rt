// Numbers that 16 bits hold.
ghost use Rattle.std.specs.Prelude.{◌≡◌, ◌≤◌, not, count_by, length};
ghost use Rattle.rows.specs.Short.{AllShort, is_short};

// Whether 16 bits hold a number.
fn fits(z: i32) -> bool
    ensures { result ≡ is_short z }
{
    (-32768..=32767).contains(&z)
}

// How many numbers 16 bits don't hold. The loop isn't left early, so that the compiler tests several numbers at a time.
// Kept: a count by hand. `xs.iter().filter(..).count()` tests them one at a time: the ADST of 16 takes 777 instructions in place of 685.
pub fn long_ones(xs: &[i32]) -> u32
    requires { length xs.now ≤ 16 }
    ensures { result ≡ count_by (λ z. not (is_short z)) xs.now }
{
    let mut n = 0;
    for x in xs {
        if !fits(*x) {
            n += 1;
        }
    }
    n
}

// The numbers of xs at 16 bits.
pub fn shorten(s: &mut [i16], xs: &[i32])
    requires { (length s.old ≡ length xs.now) × AllShort xs.now }
    ensures { s.new ≡ xs.now }
{
    for (i, short) in s.iter_mut().enumerate() {
        *short = xs[i] as i16;
    }
}
