// The samples of a call whose arguments and history are in range: the refusals 8 and 10, 14, and the work. s is the list of steps, l their levels.
ghost use Rattle.std.specs.Prelude.{◌≡◌, ◌+◌, ◌*◌, ◌-◌, ◌≤◌, ◌<◌, length};
ghost use Rattle.answers.specs.Answers.{done, refused, unless, ends};
ghost use Rattle.answers.specs.Reasons.{verdict_of};
ghost use Rattle.wht.specs.Calls.{Sixteen};
ghost use Rattle.remain.specs.Remaining.{count, word, levels_at, number_before, entry_at, marks, put_on, added_to};
ghost use Rattle.remain.specs.Touch.{across, mended};
ghost use Rattle.remain.specs.Without.{steps_without, levels_without};
ghost use Rattle.keeping.specs.Range.{area, front_of};
ghost use Rattle.history.specs.Calls.{lent, room, undoing, step_samples, stepped, taken_out, losses as Calls·losses};
ghost use Rattle.history.specs.Bounds.{Writable, Undoable};

use answers::Reason;
use remain::{cells, list, words};

// Refusal 14 where there is no room for another step.
fn full(s: &[u32]) -> Result<(), Reason>
    requires { (count s.now ≤ 4096) × (length s.now ≡ 16385) }
    ensures { verdict_of result ≡ unless (room s.now) (refused 14 0 0) done }
{
    let n = words::word(s, 0);
    if 4096 <= n {
        return Err(Reason::Full);
    }
    if 4294967295 <= words::number_before(s, n) {
        return Err(Reason::Full);
    }
    Ok(())
}

// One more step at the list's end, and its cells.
fn append(
    depth: u32,
    width: usize,
    rows: usize,
    row: usize,
    column: usize,
    level: &[i32],
    s: &mut [u32],
    l: &mut [i32],
    index: &mut [u32],
)
    requires writable { Writable width rows row column s.old l.old index.old × (length level.now ≡ 16) }
    requires s_bound { (count s.old < 4096) × (number_before s.old (count s.old) < 4294967295) }
    ensures { (s.new ≡ added_to depth row column s.old) × (l.new ≡ put_on (16 * count s.old) level.now 16 l.old)
        × (index.new ≡ mended (across width) (marks (added_to depth row column s.old) (count s.old + 1)) row column index.old) }
{
    let n = words::word(s, 0);
    let q = words::number_before(s, n);
    list::put_mark(s, n, q + 1, depth, row, column);
    list::put_levels(l, n, level);
    let k = n + 1;
    s[0] = k as u32;
    cells::mend(s, k, width, rows, row, column, index);
}

// A step.
pub fn step(
    depth: u32,
    plane: &mut [i32],
    stride: usize,
    width: usize,
    rows: usize,
    row: usize,
    column: usize,
    level: &[i32],
    s: &mut [u32],
    l: &mut [i32],
    index: &mut [u32],
) -> Result<(), Reason>
    requires { (front_of (area (length plane.old) stride width rows) depth row column level.now s.old l.old (length index.old)).number ≡ 0 }
    ensures { (verdict_of result, lent plane.new s.new l.new index.new)
        ≡ ends (step_samples (area (length plane.old) stride width rows) depth row column level.now (lent plane.old s.old l.old index.old))
        (lent plane.old s.old l.old index.old)
        (stepped (area (length plane.old) stride width rows) depth row column level.now (lent plane.old s.old l.old index.old)) }
{
    let start = row * stride + column;
    let mut gains = [0i32; 16];
    lossless::changes(level, false, &mut gains);
    lossless::block::judge(plane, &gains, depth, start, stride)?;
    full(s)?;
    lossless::block::add(plane, &gains, start, stride);
    append(depth, width, rows, row, column, level, s, l, index);
    Ok(())
}

// Step i is taken out of the list, and its cells computed anew.
fn drop_step(width: usize, rows: usize, i: usize, s: &mut [u32], l: &mut [i32], index: &mut [u32])
    requires { Writable width rows (word s.old i 2) (word s.old i 3) s.old l.old index.old × (i < count s.old) }
    ensures { (s.new ≡ steps_without i s.old) × (l.new ≡ levels_without i (count s.old) l.old)
        × (index.new ≡ mended (across width) (marks (steps_without i s.old) (count s.old - 1)) (word s.old i 2) (word s.old i 3) index.old) }
{
    let n = words::word(s, 0);
    let b = 4 * i + 1;
    let row = words::word(s, b + 2);
    let column = words::word(s, b + 3);
    list::remove(s, l, i, n);
    cells::mend(s, n - 1, width, rows, row, column, index);
}

// What the block of step i loses in its undo.
fn losses(l: &[i32], i: usize, out: &mut [i32])
    requires { (i < 4096) × (length l.now ≡ 65536) × Sixteen 262144 (levels_at l.now i) × (length out.old ≡ 16) }
    ensures { out.new ≡ Calls·losses (levels_at l.now i) }
{
    let a = 16 * i;
    let e = a + 16;
    lossless::changes(&l[a..e], true, out);
}

// Where the block of step i starts in the plane.
fn start_of(s: &[u32], stride: usize, i: usize) -> usize
    requires { (i < 4096) × (length s.now ≡ 16385) × (word s.now i 2 * stride ≤ 65536 * 65536) × (word s.now i 3 ≤ 65536) }
    ensures { result ≡ word s.now i 2 * stride + word s.now i 3 }
{
    let b = 4 * i + 1;
    words::word(s, b + 2) * stride + words::word(s, b + 3)
}

// The refusals 8 and 10 of the undo of step i.
pub fn judge_out(plane: &[i32], stride: usize, i: usize, s: &[u32], l: &[i32]) -> Result<(), Reason>
    requires { Undoable plane.now stride s.now l.now i }
    ensures { verdict_of result ≡ undoing stride plane.now (entry_at s.now l.now i) }
{
    let start = start_of(s, stride, i);
    let depth = s[4 * i + 2];
    let mut gains = [0i32; 16];
    losses(l, i, &mut gains);
    lossless::block::judge(plane, &gains, depth, start, stride)
}

// The undo of step i, which its samples allow, and which is taken out of the list.
pub fn take_out(
    plane: &mut [i32],
    stride: usize,
    width: usize,
    rows: usize,
    i: usize,
    s: &mut [u32],
    l: &mut [i32],
    index: &mut [u32],
)
    requires undoable { Undoable plane.old stride s.old l.old i × Writable width rows (word s.old i 2) (word s.old i 3) s.old l.old index.old }
    requires i_bound { (i < count s.old) × ((undoing stride plane.old (entry_at s.old l.old i)).number ≡ 0) }
    ensures { lent plane.new s.new l.new index.new
        ≡ taken_out (area 0 stride width rows) i (lent plane.old s.old l.old index.old) }
{
    let start = start_of(s, stride, i);
    let mut gains = [0i32; 16];
    losses(l, i, &mut gains);
    lossless::block::add(plane, &gains, start, stride);
    drop_step(width, rows, i, s, l, index);
}
