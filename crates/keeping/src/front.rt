// The refusals 1, 5, 6, 12 and 7. s is the list of steps, l their levels.
ghost use Rattle.std.specs.Prelude.{◌≡◌, true, ◌&&◌, ◌+◌, ◌*◌, ◌≤◌, ◌<◌, leb, length};
ghost use Rattle.whole.specs.Search.{seek};
ghost use Rattle.answers.specs.Answers.{done};
ghost use Rattle.answers.specs.Reasons.{verdict_of};
ghost use Rattle.keeping.specs.Range.{area_of, mark_ok, entry_ok, kept, front_of};
ghost use Rattle.keeping.specs.Range.{shaped as Range·shaped, stands as Range·stands, sound as Range·sound};

use answers::{Reason, Slice};
use ranges::between;
use remain::words::{number_before, word};

// What all calls of one history name.
#[derive(Clone, Copy)]
pub struct Area {
    pub size: usize, // The plane's length.
    pub stride: usize,
    pub width: usize, // Of each line, the visible samples.
    pub rows: usize, // The visible rows.
}

// Whether there can be such a stride, visible width and count of visible rows.
pub fn shaped(a: Area) -> bool
    ensures { result ≡ Range·shaped (area_of a) }
{
    between(a.stride, 4, 65536) && (between(a.width, 4, a.stride) && between(a.rows, 4, 65536))
}

// Whether a block lies in the visible area and in the plane.
pub fn stands(a: Area, row: usize, column: usize) -> bool
    requires { Range·shaped (area_of a) ≡ true }
    ensures { result ≡ Range·stands (area_of a) row column }
{
    if !lossless::front::block_fits(a.size, a.stride, a.width, row, column) {
        return false;
    }
    row + 4 <= a.rows
}

// Whether the four numbers of step i are in range, its number above that of the step before it.
fn mark_ok(a: Area, s: &[u32], i: usize) -> bool
    requires { (Range·shaped (area_of a) ≡ true) × (i < 4096) × (length s.now ≡ 16385) }
    ensures { result ≡ mark_ok (area_of a) s.now i }
{
    let b = 4 * i + 1;
    if !between(word(s, b + 1), 8, 12) {
        return false;
    }
    if !stands(a, word(s, b + 2), word(s, b + 3)) {
        return false;
    }
    number_before(s, i) < s[b]
}

// Whether step i is in range.
fn entry_ok(a: Area, s: &[u32], l: &[i32], i: usize) -> bool
    requires { (Range·shaped (area_of a) ≡ true) × (i < 4096) × (length s.now ≡ 16385) × (length l.now ≡ 65536) }
    ensures { result ≡ entry_ok (area_of a) s.now l.now i }
{
    if !mark_ok(a, s, i) {
        return false;
    }
    let b = 16 * i;
    let e = b + 16;
    wht::find_bad(&l[b..e], -262144, 262144).is_none()
}

// Whether the first k steps are in range.
fn entries_ok(a: Area, s: &[u32], l: &[i32], k: usize) -> bool
    requires { (Range·shaped (area_of a) ≡ true) × (k ≤ 4096) × (length s.now ≡ 16385) × (length l.now ≡ 65536) }
    ensures { result ≡ leb k (seek (entry_ok (area_of a) s.now l.now) 0 k) }
{
    for i in 0..k {
        if !entry_ok(a, s, l, i) {
            return false;
        }
    }
    true
}

// Whether a history is of the right length and in range; cells is the length of its index.
pub fn sound(a: Area, s: &[u32], l: &[i32], cells: usize) -> bool
    requires { Range·shaped (area_of a) ≡ true }
    ensures { result ≡ Range·sound (area_of a) s.now l.now cells }
{
    if s.len() != 16385 {
        return false;
    }
    if l.len() != 65536 {
        return false;
    }
    let high = (a.rows + 3) / 4;
    let wide = (a.width + 3) / 4;
    if cells != high * wide {
        return false;
    }
    let k = word(s, 0);
    if 4096 < k {
        return false;
    }
    entries_ok(a, s, l, k)
}

// The refusals 5 and 12.
pub fn judge_kept(a: Area, s: &[u32], l: &[i32], cells: usize) -> Result<(), Reason>
    ensures { verdict_of result ≡ kept (area_of a) s.now l.now cells done }
{
    if !shaped(a) {
        return Err(Reason::Stride);
    }
    if !sound(a, s, l, cells) {
        return Err(Reason::History);
    }
    Ok(())
}

// The refusals 1, 5, 6, 12 and 7 of a step.
pub fn judge_step(
    a: Area,
    depth: u32,
    row: usize,
    column: usize,
    level: &[i32],
    s: &[u32],
    l: &[i32],
    cells: usize,
) -> Result<(), Reason>
    ensures { verdict_of result ≡ front_of (area_of a) depth row column level.now s.now l.now cells }
{
    if !between(depth as usize, 8, 12) {
        return Err(Reason::Depth);
    }
    if !shaped(a) {
        return Err(Reason::Stride);
    }
    if level.len() != 16 {
        return Err(Reason::Length(Slice::Read));
    }
    if !stands(a, row, column) {
        return Err(Reason::Length(Slice::Picture));
    }
    if !sound(a, s, l, cells) {
        return Err(Reason::History);
    }
    match wht::find_bad(level, -262144, 262144) {
        Some(place) => Err(Reason::Level(Slice::Read, place)),
        None => Ok(()),
    }
}
