// A whole block at the start of a plane of bytes: the live part of the rows, then the columns. The areas are lent by size, since each is cleared.
ghost use Rattle.std.specs.Prelude.{◌≡◌, ◌≤◌};
ghost use Rattle.fast.specs.Gains.{residual8, Narrow, Lent8, Room8};
ghost use Rattle.quick_bytes.specs.Held.{Held, bytes_by};

// The block of w by h, with its areas lent.
fn run(
    dst: &mut [u8],
    stride: usize,
    work: &mut [i16],
    t: &mut [i16],
    res: &mut [i32],
    coeff: &[i32],
    w: usize,
    h: usize,
    first: u32,
    second: u32,
    rowwise: bool,
)
    requires { Narrow w h first coeff.now × (second ≤ 16) × Held 0 stride w h dst.old × (w ≤ 32) × (h ≤ 32) × Lent8 w h work.old t.old res.old }
    ensures { dst.new ≡ bytes_by w h (residual8 rowwise w h first second coeff.now) dst.old stride }
{
    let live = fast::ready::ready(work, t, res, coeff, w, h, first, rowwise);
    crate::columns::columns(dst, stride, work, res, w, h, live, second);
}

// The same, with areas of W places for the block and of T for sixteen lines and their results.
fn add_in<const W: usize, const T: usize>(
    dst: &mut [u8],
    stride: usize,
    coeff: &[i32],
    w: usize,
    h: usize,
    first: u32,
    second: u32,
    rowwise: bool,
)
    requires { Narrow w h first coeff.now × (second ≤ 16) × Held 0 stride w h dst.old × (w ≤ 32) × (h ≤ 32) × Room8 w h W T }
    ensures { dst.new ≡ bytes_by w h (residual8 rowwise w h first second coeff.now) dst.old stride }
{
    let mut work = [0i16; W];
    let mut t = [0i16; T];
    let mut res = [0i32; T];
    run(
        dst, stride, &mut work, &mut t, &mut res, coeff, w, h, first, second, rowwise,
    );
}

// A block of w by h, by its size.
pub fn add_block(
    dst: &mut [u8],
    stride: usize,
    coeff: &[i32],
    w: usize,
    h: usize,
    first: u32,
    second: u32,
    rowwise: bool,
)
    requires { Narrow w h first coeff.now × (second ≤ 16) × Held 0 stride w h dst.old × (w ≤ 32) × (h ≤ 32) }
    ensures { dst.new ≡ bytes_by w h (residual8 rowwise w h first second coeff.now) dst.old stride }
{
    if w <= 8 && h <= 8 {
        add_in::<128, 128>(dst, stride, coeff, w, h, first, second, rowwise);
    } else if w <= 16 && h <= 16 {
        add_in::<256, 256>(dst, stride, coeff, w, h, first, second, rowwise);
    } else {
        add_in::<1024, 512>(dst, stride, coeff, w, h, first, second, rowwise);
    }
}
