// The work area of a block: the live part of its coefficients is found, and goes through the rows.
ghost use Rattle.std.specs.Prelude.{◌≡◌};
ghost use Rattle.fast.specs.Gains.{twice, Narrow, Lent8, Ready8};

// How often a side repeats each result, as a power of two.
pub fn repeats_of(n: usize) -> u32
    ensures { result ≡ twice n }
{
    if n <= 32 { 0 } else { 1 }
}

// The rows of the block of w by h, and how many of them may be other than 0.
pub fn ready(
    work: &mut [i16],
    t: &mut [i16],
    out: &mut [i32],
    coeff: &[i32],
    w: usize,
    h: usize,
    first: u32,
    rowwise: bool,
) -> usize
    requires { Narrow w h first coeff.now × Lent8 w h work.old t.old out.old }
    ensures { Ready8 rowwise w h first coeff.now work.new result }
{
    let sw = tables::size::cut_of(w);
    let sh = tables::size::cut_of(h);
    let scale = tables::size::is_scaled(w, h);
    let live = passes::live::live_part(coeff, sw, sh, rowwise);
    crate::block_rows::rows(
        work,
        t,
        out,
        coeff,
        sw,
        sh,
        live.across,
        live.down,
        first,
        scale,
        rowwise,
    );
    live.down
}
