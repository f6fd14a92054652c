// Blocks of pixels as f32, from their predictions and the results of the narrow passes.
ghost use Rattle.std.specs.Prelude.{◌≡◌, ℕ, ◌+◌, ◌*◌, ◌/◌, ◌^◌, ◌≤◌, ◌<◌, pos, nat_abs, length, get_or};
ghost use Rattle.whole.specs.Numbers.{round_shift};
ghost use Rattle.whole.specs.Sums.{tab, Within};
ghost use Rattle.whole.specs.Grid.{cols_by};
ghost use Rattle.tables.specs.Sizes.{cut};
ghost use Rattle.wide_rows.specs.Lines.{line, Sized};
ghost use Rattle.narrow.specs.Painted.{Painted};
ghost use Rattle.fast.specs.Groups.{cell_of, Area, dct_of};
ghost use Rattle.fast.specs.Gains.{gain_of, Side, twice, residual_by, gains_of, Shown, group_of, residual8, Narrow, Seen, Lent8, Room8};
ghost use Rattle.pixels.specs.Pixels.{pixel_f};
ghost use Rattle.pixels.specs.Calls.{filled_by};

// A row of pixels as f32, from its predictions and a row of results; each result serves 2^HALF pixels.
fn fill<const HALF: u32>(out: &mut [f32], pred: &[i32], e: [i32; 16], shift: u32)
    requires { (length out.old ≡ length pred.now) × Within 4096 pred.now × Within (2 ^ 30) e × (HALF ≤ 1) × ((x : ℕ) → x < length out.old → x / 2 ^ HALF < 16) × (shift ≤ 16) }
    ensures { out.new ≡ tab (length out.old) (λ x. pixel_f (gain_of (get_or pred.now x (pos 0)) (round_shift shift (get_or e (x / 2 ^ HALF) (pos 0))))) }
{
    for (x, o) in out.iter_mut().enumerate() {
        let z = narrow::gained(pred[x], e[x >> HALF], shift);
        *o = pixels::block_rows::float(z);
    }
}

// The same, with a loop of its own for each way of repeating.
fn fill_row(out: &mut [f32], pred: &[i32], e: [i32; 16], half: u32, shift: u32)
    requires { (length out.old ≡ length pred.now) × Within 4096 pred.now × Within (2 ^ 30) e × (half ≤ 1) × ((x : ℕ) → x < length out.old → x / 2 ^ half < 16) × (shift ≤ 16) }
    ensures { out.new ≡ tab (length out.old) (λ x. pixel_f (gain_of (get_or pred.now x (pos 0)) (round_shift shift (get_or e (x / 2 ^ half) (pos 0))))) }
{
    if half == 0 {
        fill::<0>(out, pred, e, shift);
    } else {
        fill::<1>(out, pred, e, shift);
    }
}

// Every row of a block of w by h, whose first pixel is at from.
fn fill_rows(
    out: &mut [f32],
    pred: &[i32],
    stride: usize,
    from: usize,
    w: usize,
    h: usize,
    res: &[i32],
    across: u32,
    down: u32,
    shift: u32,
)
    requires shown { Shown from stride w h pred.now × ((y : ℕ) → y < h → from + y * stride + w ≤ length out.old) × (across ≤ 1) × (down ≤ 1) × (shift ≤ 16) × ((x : ℕ) → x < w → x / 2 ^ across < 16) }
    requires by_index { (y : ℕ) → y < h → ((y / 2 ^ down) * 16 + 16 ≤ length res.now) × ((l : ℕ) → l < 16 → nat_abs (line res.now l (y / 2 ^ down)) ≤ 2 ^ 30) }
    ensures { Painted (pixel_f (pos 0)) from stride w h (λ y x. pixel_f (gains_of pred.now from stride (residual_by shift across down (λ r x. line res.now x r)) y x)) out.old out.new }
{
    for y in 0..h {
        let a = from + y * stride;
        let b = a + w;
        let r = y >> down;
        let e = narrow::row_of(res, r);
        fill_row(&mut out[a..b], &pred[a..b], e, across, shift);
    }
}

// Group q of the work area: the columns' results, and the block of w by h from there on. Where a result serves two pixels it is rounded before.
fn fill_strip(
    out: &mut [f32],
    pred: &[i32],
    stride: usize,
    work: &[i16],
    res: &mut [i32],
    q: usize,
    from: usize,
    w: usize,
    h: usize,
    sh: usize,
    live: usize,
    across: u32,
    down: u32,
    shift: u32,
)
    requires shown { Shown from stride w h pred.now × ((y : ℕ) → y < h → from + y * stride + w ≤ length out.old) × (across ≤ 1) × (down ≤ 1) × (shift ≤ 16) × ((x : ℕ) → x < w → x / 2 ^ across < 16) × ((y : ℕ) → y < h → y / 2 ^ down < sh) }
    requires sized { Sized sh × ((q * sh + sh) * 16 ≤ length work.now) × (sh * 16 ≤ length res.old) × ((l j : ℕ) → l < 16 → live ≤ j → j < sh → cell_of sh work.now q j l ≡ pos 0) }
    ensures { Painted (pixel_f (pos 0)) from stride w h (λ y x. pixel_f (gains_of pred.now from stride (residual_by shift across down (cols_by (dct_of sh) sh (cell_of sh work.now q))) y x)) out.old out.new }
{
    fast::columns::results(work, res, q, sh, live);
    if across == 0 {
        fill_rows(out, pred, stride, from, w, h, res, 0, down, shift);
    } else {
        fast::columns::settled(res, sh, shift);
        fill_rows(out, pred, stride, from, w, h, res, 1, down, 0);
    }
}

// All columns of a block of w by h: one group, or two side by side.
fn fill_columns(
    out: &mut [f32],
    pred: &[i32],
    work: &[i16],
    res: &mut [i32],
    w: usize,
    h: usize,
    sw: usize,
    sh: usize,
    live: usize,
    across: u32,
    down: u32,
    shift: u32,
)
    requires side { Side w × Side h × (sw ≡ cut w) × (sh ≡ cut h) × (across ≡ twice w) × (down ≡ twice h) × (shift ≤ 16) × Shown 0 w w h pred.now × ((y : ℕ) → y < h → 0 + y * w + w ≤ length out.old) }
    requires area { Area sw sh work.now × (sh * 16 ≤ length res.old) × ((q l j : ℕ) → l < 16 → 16 * q < sw → live ≤ j → j < sh → cell_of sh work.now q j l ≡ pos 0) }
    ensures { Painted (pixel_f (pos 0)) 0 w w h (λ y x. pixel_f (gains_of pred.now 0 w (residual_by shift across down (cols_by (dct_of sh) sh (group_of sh work.now))) y x)) out.old out.new }
{
    if sw <= 16 {
        fill_strip(
            out, pred, w, work, res, 0, 0, w, h, sh, live, across, down, shift,
        );
    } else {
        let g = w / 2;
        fill_strip(
            out, pred, w, work, res, 0, 0, g, h, sh, live, across, down, shift,
        );
        fill_strip(
            out, pred, w, work, res, 1, g, g, h, sh, live, across, down, shift,
        );
    }
}

// The block of w by h, with its areas lent.
fn run(
    out: &mut [f32],
    pred: &[i32],
    work: &mut [i16],
    t: &mut [i16],
    res: &mut [i32],
    coeff: &[i32],
    w: usize,
    h: usize,
    first: u32,
    second: u32,
    rowwise: bool,
)
    requires { Narrow w h first coeff.now × (second ≤ 16) × Seen w h w pred.now × (h * w ≤ length out.old) × Lent8 w h work.old t.old res.old }
    ensures { out.new ≡ filled_by w h 8 (residual8 rowwise w h first second coeff.now) out.old pred.now }
{
    let live = fast::ready::ready(work, t, res, coeff, w, h, first, rowwise);
    let sw = tables::size::cut_of(w);
    let sh = tables::size::cut_of(h);
    let across = fast::ready::repeats_of(w);
    let down = fast::ready::repeats_of(h);
    fill_columns(
        out, pred, work, res, w, h, sw, sh, live, across, down, second,
    );
}

// The same, with areas of W places for the block and of T for sixteen lines and their results.
fn fill_in<const W: usize, const T: usize>(
    out: &mut [f32],
    pred: &[i32],
    coeff: &[i32],
    w: usize,
    h: usize,
    first: u32,
    second: u32,
    rowwise: bool,
)
    requires { Narrow w h first coeff.now × (second ≤ 16) × Seen w h w pred.now × (h * w ≤ length out.old) × Room8 w h W T }
    ensures { out.new ≡ filled_by w h 8 (residual8 rowwise w h first second coeff.now) out.old pred.now }
{
    let mut work = [0i16; W];
    let mut t = [0i16; T];
    let mut res = [0i32; T];
    run(
        out, pred, &mut work, &mut t, &mut res, coeff, w, h, first, second, rowwise,
    );
}

// A block of w by h, by its size.
pub fn fill_block(
    out: &mut [f32],
    pred: &[i32],
    coeff: &[i32],
    w: usize,
    h: usize,
    first: u32,
    second: u32,
    rowwise: bool,
)
    requires { Narrow w h first coeff.now × (second ≤ 16) × Seen w h w pred.now × (h * w ≤ length out.old) }
    ensures { out.new ≡ filled_by w h 8 (residual8 rowwise w h first second coeff.now) out.old pred.now }
{
    if w <= 16 && h <= 16 {
        fill_in::<256, 256>(out, pred, coeff, w, h, first, second, rowwise);
    } else {
        fill_in::<1024, 512>(out, pred, coeff, w, h, first, second, rowwise);
    }
}
