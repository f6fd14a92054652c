// The columns of a block, sixteen at a time: they go through the DCT, and the bytes gain the results. No side is larger than 32, so each result serves one byte.
ghost use Rattle.std.specs.Prelude.{◌≡◌, ℕ, ◌+◌, ◌*◌, ◌^◌, ◌≤◌, ◌<◌, pos, nat_abs, length, get_or};
ghost use Rattle.whole.specs.Sums.{tab, Within};
ghost use Rattle.whole.specs.Grid.{cols_by};
ghost use Rattle.wide_rows.specs.Lines.{line, Sized};
ghost use Rattle.narrow.specs.Painted.{Painted};
ghost use Rattle.fast.specs.Groups.{cell_of, Area, dct_of};
ghost use Rattle.fast.specs.Gains.{group_of};
ghost use Rattle.quick_bytes.specs.Held.{Held, reached, reached_of};

// A byte with a result, which is rounded here and needs no clamp of its own.
fn gained(p: u8, e: i32, shift: u32) -> u8
    requires { (nat_abs e ≤ 2 ^ 30) × (shift ≤ 16) }
    ensures { result ≡ reached shift p e }
{
    let z = narrow::gained(octets::number(p), e, shift);
    octets::byte(z)
}

// Each byte of a row gains its result.
fn gain_row(row: &mut [u8], e: [i32; 16], shift: u32)
    requires { Within (2 ^ 30) e × (length row.old ≤ 16) × (shift ≤ 16) }
    ensures { row.new ≡ tab (length row.old) (λ x. reached shift (get_or row.old x 0) (get_or e x (pos 0))) }
{
    for (x, p) in row.iter_mut().enumerate() {
        *p = gained(*p, e[x], shift);
    }
}

// Every row of a block of w by h, whose first byte is at from, gains its results, which stand in rows of sixteen.
fn gain_rows(
    dst: &mut [u8],
    stride: usize,
    from: usize,
    w: usize,
    h: usize,
    res: &[i32],
    shift: u32,
)
    requires { Held from stride w h dst.old × (w ≤ 16) × (shift ≤ 16) × ((y : ℕ) → y < h → (y * 16 + 16 ≤ length res.now) × ((l : ℕ) → l < 16 → nat_abs (line res.now l y) ≤ 2 ^ 30)) }
    ensures { Painted 0 from stride w h (reached_of dst.old from stride shift (λ r x. line res.now x r)) dst.old dst.new }
{
    for y in 0..h {
        let a = from + y * stride;
        let b = a + w;
        let e = narrow::row_of(res, y);
        gain_row(&mut dst[a..b], e, shift);
    }
}

// Group q of the work area: its columns go through the DCT, and the block of w by h from there on gains them.
fn strip(
    dst: &mut [u8],
    stride: usize,
    work: &[i16],
    res: &mut [i32],
    q: usize,
    from: usize,
    w: usize,
    h: usize,
    live: usize,
    shift: u32,
)
    requires held { Held from stride w h dst.old × (w ≤ 16) × (shift ≤ 16) }
    requires sized { Sized h × ((q * h + h) * 16 ≤ length work.now) × (h * 16 ≤ length res.old) × ((l j : ℕ) → l < 16 → live ≤ j → j < h → cell_of h work.now q j l ≡ pos 0) }
    ensures { Painted 0 from stride w h (reached_of dst.old from stride shift (cols_by (dct_of h) h (cell_of h work.now q))) dst.old dst.new }
{
    fast::columns::results(work, res, q, h, live);
    gain_rows(dst, stride, from, w, h, res, shift);
}

// All columns of a block of w by h at the start of the plane: one group, or two side by side.
pub fn columns(
    dst: &mut [u8],
    stride: usize,
    work: &[i16],
    res: &mut [i32],
    w: usize,
    h: usize,
    live: usize,
    shift: u32,
)
    requires held { Held 0 stride w h dst.old × Sized w × Sized h × (shift ≤ 16) }
    requires area { Area w h work.now × (h * 16 ≤ length res.old) × ((q l j : ℕ) → l < 16 → 16 * q < w → live ≤ j → j < h → cell_of h work.now q j l ≡ pos 0) }
    ensures { Painted 0 0 stride w h (reached_of dst.old 0 stride shift (cols_by (dct_of h) h (group_of h work.now))) dst.old dst.new }
{
    if w <= 16 {
        strip(dst, stride, work, res, 0, 0, w, h, live, shift);
    } else {
        strip(dst, stride, work, res, 0, 0, 16, h, live, shift);
        strip(dst, stride, work, res, 1, 16, 16, h, live, shift);
    }
}
