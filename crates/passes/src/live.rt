// How much of a block is live: the rows, in fours, and the columns up to the last that hold a number other than zero. The coefficients stand in lines, which are columns or, in row order, rows.
ghost use Rattle.std.specs.Prelude.{◌≡◌, false, ℕ, ◌+◌, ◌*◌, ◌%◌, ◌≤◌, ◌<◌, pos, length, get_or};
ghost use Rattle.passes.specs.Passes.{Dead, DeadLines, DeadFours};

// The live part of a block: its first columns, and its first rows, which are a multiple of four.
#[derive(Clone, Copy)]
pub struct Part {
    pub across: usize,
    pub down: usize,
}

// How many numbers are not zero. The loop isn't left early, so that the compiler tests several numbers at a time.
fn some(c: &[i32]) -> u32
    requires { length c.now ≤ 1024 }
    ensures { result ≡ 0 → (k : ℕ) → k < length c.now → get_or c.now k (pos 0) ≡ pos 0 }
{
    let mut n = 0;
    for z in c {
        n += u32::from(*z != 0);
    }
    n
}

// One more than the last of the first top lines that is not empty.
fn last_line(coeff: &[i32], top: usize, size: usize) -> usize
    requires { (top ≤ 32) × (size ≤ 32) × (top * size ≤ length coeff.now) }
    ensures { (result ≤ top) × DeadLines result top size coeff.now }
{
    for x in (0..top).rev() {
        let a = x * size;
        if some(&coeff[a..a + size]) != 0 {
            return x + 1;
        }
    }
    0
}

// One more than the last of all lines that is not empty: most often the last; else those from the fifth on are tested as a whole.
fn live_lines(coeff: &[i32], lines: usize, size: usize) -> usize
    requires { (4 ≤ lines) × (lines ≤ 32) × (size ≤ 32) × (lines * size ≤ length coeff.now) }
    ensures { (result ≤ lines) × DeadLines result lines size coeff.now }
{
    let a = 4 * size;
    let e = lines * size;
    let b = e - size;
    if some(&coeff[b..e]) != 0 {
        return lines;
    }
    if some(&coeff[a..e]) == 0 {
        last_line(coeff, 4, size)
    } else {
        last_line(coeff, lines, size)
    }
}

// Whether the four places from r on hold a number other than zero in one of the lines.
fn four_live(coeff: &[i32], r: usize, lines: usize, size: usize) -> bool
    requires { (r + 4 ≤ size) × (size ≤ 32) × (lines ≤ 32) × (lines * size ≤ length coeff.now) }
    ensures { result ≡ false → (k x : ℕ) → k < 4 → x < lines → get_or coeff.now (r + k + x * size) (pos 0) ≡ pos 0 }
{
    for x in 0..lines {
        let a = r + x * size;
        if some(&coeff[a..a + 4]) != 0 {
            return true;
        }
    }
    false
}

// The end of the last four places that are not zero in all of the lines.
fn live_fours(coeff: &[i32], lines: usize, size: usize) -> usize
    requires { (size % 4 ≡ 0) × (size ≤ 32) × (lines ≤ 32) × (lines * size ≤ length coeff.now) }
    ensures { (result ≤ size) × (result % 4 ≡ 0) × DeadFours result lines size coeff.now }
{
    for k in (0..size / 4).rev() {
        if four_live(coeff, 4 * k, lines, size) {
            return 4 * k + 4;
        }
    }
    0
}

// The live part of a block. The last line is found first, then the last four places of the lines up to it.
pub fn live_part(coeff: &[i32], sw: usize, sh: usize, rowwise: bool) -> Part
    requires { (4 ≤ sw) × (sw ≤ 32) × (sw % 4 ≡ 0) × (4 ≤ sh) × (sh ≤ 32) × (sh % 4 ≡ 0) × (sw * sh ≤ length coeff.now) }
    ensures { (result.across ≤ sw) × (result.down ≤ sh) × (result.down % 4 ≡ 0) × Dead rowwise sw sh result.across result.down coeff.now }
{
    if rowwise {
        let rows = live_lines(coeff, sh, sw);
        let across = live_fours(coeff, rows, sw);
        Part {
            across,
            down: (rows + 3) / 4 * 4,
        }
    } else {
        let across = live_lines(coeff, sw, sh);
        let down = live_fours(coeff, across, sh);
        Part { across, down }
    }
}
