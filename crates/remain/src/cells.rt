// The last-touch index: row by row, for each 4x4 grid cell, the number of the latest step that shares a sample with it.
ghost use Rattle.std.specs.Prelude.{◌≡◌, ◌+◌, ◌*◌, ◌/◌, ◌≤◌, ◌<◌, length};
ghost use Rattle.remain.specs.Remaining.{count, marks, word as Remaining·word};
ghost use Rattle.remain.specs.Touch.{across, mended, index_of};
ghost use Rattle.remain.specs.Bounds.{Lying};

use crate::words::{last_touch, word};

// The at most four cells of the block at a row and column, computed from the first n steps.
pub fn mend(
    s: &[u32],
    n: usize,
    width: usize,
    rows: usize,
    row: usize,
    column: usize,
    index: &mut [u32],
)
    requires n_bound { (n ≤ 4096) × (length s.now ≡ 16385) }
    requires width_bound { (width ≤ 65536) × (rows ≤ 65536) × (column + 4 ≤ width) × (row + 4 ≤ rows) × (length index.old ≡ across rows * across width) }
    ensures { index.new ≡ mended (across width) (marks s.now n) row column index.old }
{
    let w = (width + 3) / 4;
    let y = row / 4;
    let x = column / 4;
    let below = (row + 3) / 4;
    let right = (column + 3) / 4;
    let a = last_touch(s, y * 4, x * 4, n);
    let b = last_touch(s, y * 4, right * 4, n);
    let c = last_touch(s, below * 4, x * 4, n);
    let d = last_touch(s, below * 4, right * 4, n);
    index[y * w + x] = a;
    index[y * w + right] = b;
    index[below * w + x] = c;
    index[below * w + right] = d;
}

// The cells of step i, as the first i + 1 steps leave them. The search from the end finds step i at once.
fn cover(s: &[u32], i: usize, width: usize, rows: usize, index: &mut [u32])
    requires i_bound { (i < 4096) × (length s.now ≡ 16385) }
    requires width_bound { (width ≤ 65536) × (rows ≤ 65536) × (Remaining·word s.now i 3 + 4 ≤ width) × (Remaining·word s.now i 2 + 4 ≤ rows) × (length index.old ≡ across rows * across width) }
    ensures { index.new ≡ mended (across width) (marks s.now (i + 1)) (Remaining·word s.now i 2) (Remaining·word s.now i 3) index.old }
{
    let b = 4 * i + 1;
    let row = word(s, b + 2);
    let column = word(s, b + 3);
    mend(s, i + 1, width, rows, row, column, index);
}

// The whole index: empty, then the cells of one step after the other.
pub fn rebuild(s: &[u32], width: usize, rows: usize, index: &mut [u32])
    requires s_bound { (count s.now ≤ 4096) × (length s.now ≡ 16385) × Lying s.now width rows (count s.now) }
    requires width_bound { (width ≤ 65536) × (rows ≤ 65536) × (length index.old ≡ across rows * across width) }
    ensures { index.new ≡ index_of width rows (marks s.now (count s.now)) }
{
    index.fill(0);
    for i in 0..word(s, 0) {
        cover(s, i, width, rows, index);
    }
}
