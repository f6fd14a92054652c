// A whole block at the start of a picture: the live part of the rows, then the columns. The areas are lent by size, since each is cleared.
ghost use Rattle.std.specs.Prelude.{◌≡◌, ◌≤◌};
ghost use Rattle.fast.specs.Gains.{residual8, gained_by, Narrow, Seen, Lent8, Room8};

// The block of w by h, with its areas lent.
fn run(
    dst: &mut [i32],
    stride: usize,
    work: &mut [i16],
    t: &mut [i16],
    out: &mut [i32],
    coeff: &[i32],
    w: usize,
    h: usize,
    first: u32,
    second: u32,
    rowwise: bool,
)
    requires { Narrow w h first coeff.now × (second ≤ 16) × Seen w h stride dst.old × Lent8 w h work.old t.old out.old }
    ensures { dst.new ≡ gained_by w h (residual8 rowwise w h first second coeff.now) dst.old stride }
{
    let live = crate::ready::ready(work, t, out, coeff, w, h, first, rowwise);
    let sw = tables::size::cut_of(w);
    let sh = tables::size::cut_of(h);
    let across = crate::ready::repeats_of(w);
    let down = crate::ready::repeats_of(h);
    crate::columns::columns(
        dst, stride, work, out, w, h, sw, sh, live, across, down, second,
    );
}

// The same, with areas of W places for the block and of T for sixteen lines and their results.
fn add_in<const W: usize, const T: usize>(
    dst: &mut [i32],
    stride: usize,
    coeff: &[i32],
    w: usize,
    h: usize,
    first: u32,
    second: u32,
    rowwise: bool,
)
    requires { Narrow w h first coeff.now × (second ≤ 16) × Seen w h stride dst.old × Room8 w h W T }
    ensures { dst.new ≡ gained_by w h (residual8 rowwise w h first second coeff.now) dst.old stride }
{
    let mut work = [0i16; W];
    let mut t = [0i16; T];
    let mut out = [0i32; T];
    run(
        dst, stride, &mut work, &mut t, &mut out, coeff, w, h, first, second, rowwise,
    );
}

// A block of w by h, by its size.
pub fn add(
    dst: &mut [i32],
    stride: usize,
    coeff: &[i32],
    w: usize,
    h: usize,
    first: u32,
    second: u32,
    rowwise: bool,
)
    requires { Narrow w h first coeff.now × (second ≤ 16) × Seen w h stride dst.old }
    ensures { dst.new ≡ gained_by w h (residual8 rowwise w h first second coeff.now) dst.old stride }
{
    if w <= 8 && h <= 8 {
        add_in::<128, 128>(dst, stride, coeff, w, h, first, second, rowwise);
    } else if w <= 16 && h <= 16 {
        add_in::<256, 256>(dst, stride, coeff, w, h, first, second, rowwise);
    } else {
        add_in::<1024, 512>(dst, stride, coeff, w, h, first, second, rowwise);
    }
}
