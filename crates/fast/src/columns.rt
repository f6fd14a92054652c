// The columns of a block, sixteen at a time: they go through the DCT, and the picture gains the results.
ghost use Rattle.std.specs.Prelude.{◌≡◌, ℕ, ◌+◌, ◌*◌, ◌/◌, ◌^◌, ◌≤◌, ◌<◌, pos, nat_abs, length};
ghost use Rattle.whole.specs.Numbers.{round_shift};
ghost use Rattle.whole.specs.Grid.{cols_by};
ghost use Rattle.tables.specs.Sizes.{cut};
ghost use Rattle.wide_rows.specs.Lines.{line, Sized};
ghost use Rattle.narrow.specs.Painted.{Painted};
ghost use Rattle.fast.specs.Groups.{cell_of, Area, dct_of};
ghost use Rattle.fast.specs.Gains.{Side, twice, residual_by, gains_of, Shown, group_of, Results};

// Every row of a block of w by h, whose first sample is at from, gains its results, which stand in rows of sixteen.
fn gain_rows(
    dst: &mut [i32],
    stride: usize,
    from: usize,
    w: usize,
    h: usize,
    out: &[i32],
    across: u32,
    down: u32,
    shift: u32,
)
    requires shown { Shown from stride w h dst.old × (across ≤ 1) × (down ≤ 1) × (shift ≤ 16) × ((x : ℕ) → x < w → x / 2 ^ across < 16) }
    requires by_index { (y : ℕ) → y < h → ((y / 2 ^ down) * 16 + 16 ≤ length out.now) × ((l : ℕ) → l < 16 → nat_abs (line out.now l (y / 2 ^ down)) ≤ 2 ^ 30) }
    ensures { Painted (pos 0) from stride w h (gains_of dst.old from stride (residual_by shift across down (λ r x. line out.now x r))) dst.old dst.new }
{
    for y in 0..h {
        let a = from + y * stride;
        let b = a + w;
        let r = y >> down;
        let e = narrow::row_of(out, r);
        narrow::gain_row(&mut dst[a..b], e, across, shift);
    }
}

// The columns of group q of the work area through the DCT: row r of the results has number r of each.
pub fn results(work: &[i16], out: &mut [i32], q: usize, sh: usize, live: usize)
    requires { Sized sh × ((q * sh + sh) * 16 ≤ length work.now) × (sh * 16 ≤ length out.old) × ((l j : ℕ) → l < 16 → live ≤ j → j < sh → cell_of sh work.now q j l ≡ pos 0) }
    ensures { Results sh (cols_by (dct_of sh) sh (cell_of sh work.now q)) out.new }
{
    let b = q * sh * 16;
    let n = sh * 16;
    let e = b + n;
    wide::dct::lines(&work[b..e], out, sh, live);
}

// The results of a group, rounded.
pub fn settled(out: &mut [i32], sh: usize, shift: u32)
    requires { (sh * 16 ≤ length out.old) × (shift ≤ 16) × ((r l : ℕ) → r < sh → l < 16 → nat_abs (line out.old l r) ≤ 2 ^ 24 + 4 * 2 ^ 26) }
    ensures { (r l : ℕ) → r < sh → l < 16 → line out.new l r ≡ round_shift shift (line out.old l r) }
{
    let n = sh * 16;
    narrow::settle(&mut out[..n], shift);
}

// Group q of the work area: its columns go through the DCT, and the block of w by h from there on gains them. Where a result serves two samples it is rounded before.
fn strip(
    dst: &mut [i32],
    stride: usize,
    work: &[i16],
    out: &mut [i32],
    q: usize,
    from: usize,
    w: usize,
    h: usize,
    sh: usize,
    live: usize,
    across: u32,
    down: u32,
    shift: u32,
)
    requires shown { Shown from stride w h dst.old × (across ≤ 1) × (down ≤ 1) × (shift ≤ 16) × ((x : ℕ) → x < w → x / 2 ^ across < 16) × ((y : ℕ) → y < h → y / 2 ^ down < sh) }
    requires sized { Sized sh × ((q * sh + sh) * 16 ≤ length work.now) × (sh * 16 ≤ length out.old) × ((l j : ℕ) → l < 16 → live ≤ j → j < sh → cell_of sh work.now q j l ≡ pos 0) }
    ensures { Painted (pos 0) from stride w h (gains_of dst.old from stride (residual_by shift across down (cols_by (dct_of sh) sh (cell_of sh work.now q)))) dst.old dst.new }
{
    results(work, out, q, sh, live);
    if across == 0 {
        gain_rows(dst, stride, from, w, h, out, 0, down, shift);
    } else {
        settled(out, sh, shift);
        gain_rows(dst, stride, from, w, h, out, 1, down, 0);
    }
}

// All columns of a block of w by h at the start of the picture: one group, or two side by side.
pub fn columns(
    dst: &mut [i32],
    stride: usize,
    work: &[i16],
    out: &mut [i32],
    w: usize,
    h: usize,
    sw: usize,
    sh: usize,
    live: usize,
    across: u32,
    down: u32,
    shift: u32,
)
    requires side { Side w × Side h × (sw ≡ cut w) × (sh ≡ cut h) × (across ≡ twice w) × (down ≡ twice h) × (shift ≤ 16) × Shown 0 stride w h dst.old }
    requires area { Area sw sh work.now × (sh * 16 ≤ length out.old) × ((q l j : ℕ) → l < 16 → 16 * q < sw → live ≤ j → j < sh → cell_of sh work.now q j l ≡ pos 0) }
    ensures { Painted (pos 0) 0 stride w h (gains_of dst.old 0 stride (residual_by shift across down (cols_by (dct_of sh) sh (group_of sh work.now)))) dst.old dst.new }
{
    if sw <= 16 {
        strip(
            dst, stride, work, out, 0, 0, w, h, sh, live, across, down, shift,
        );
    } else {
        let g = w / 2;
        strip(
            dst, stride, work, out, 0, 0, g, h, sh, live, across, down, shift,
        );
        strip(
            dst, stride, work, out, 1, g, g, h, sh, live, across, down, shift,
        );
    }
}
