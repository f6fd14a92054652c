// Numbers of the list of remaining steps, and searches in it. Step i has its number, depth, row and column from place 4 * i + 1 on.
ghost use Rattle.std.specs.Prelude.{◌≡◌, ◌&&◌, ◌+◌, ◌*◌, ◌≤◌, ◌<◌, length, get_or};
ghost use Rattle.answers.specs.Answers.{done, refused, unless};
ghost use Rattle.answers.specs.Reasons.{verdict_of};
ghost use Rattle.remain.specs.Remaining.{count, mark_at, marks, number_before, counted};
ghost use Rattle.remain.specs.Remaining.{found as Remaining·found};
ghost use Rattle.remain.specs.Touch.{last_touch, touches};
ghost use Rattle.remain.specs.Touch.{near as Touch·near, shares as Touch·shares, latest as Touch·latest};
ghost use Rattle.remain.specs.Touch.{free};

use answers::Reason;

// Number i of the list.
pub fn word(s: &[u32], i: usize) -> usize
    requires { i < length s.now }
    ensures { result ≡ get_or s.now i 0 }
{
    s[i] as usize
}

// Whether two stretches of four share a number.
pub fn near(a: usize, b: usize) -> bool
    ensures { result ≡ Touch·near a b }
{
    if a < b {
        return b - a < 4;
    }
    a - b < 4
}

// Whether two 4x4 blocks share a sample.
pub fn shares(r: usize, c: usize, row: usize, column: usize) -> bool
    ensures { result ≡ Touch·shares r c row column }
{
    near(r, row) && near(c, column)
}

// Whether step i shares a sample with the block at a row and column.
fn touching(s: &[u32], i: usize, row: usize, column: usize) -> bool
    requires { (i < 4096) × (length s.now ≡ 16385) }
    ensures { result ≡ touches row column (mark_at s.now i) }
{
    let b = 4 * i + 1;
    shares(row, column, word(s, b + 2), word(s, b + 3))
}

// The latest of the first n steps that shares a sample with the block at a row and column.
pub fn latest(s: &[u32], row: usize, column: usize, n: usize) -> Option<usize>
    requires { (n ≤ 4096) × (length s.now ≡ 16385) }
    ensures { counted result ≡ Touch·latest s.now row column n }
{
    for i in (0..n).rev() {
        if touching(s, i, row, column) {
            return Some(i);
        }
    }
    None
}

// The step with a number, among the first n.
pub fn found(s: &[u32], number: u32, n: usize) -> Option<usize>
    requires { (n ≤ 4096) × (length s.now ≡ 16385) }
    ensures { counted result ≡ Remaining·found s.now number n }
{
    for i in (0..n).rev() {
        if s[4 * i + 1] == number {
            return Some(i);
        }
    }
    None
}

// The number of step i - 1; 0 where i is 0.
// Kept: 0 stands for no step in the list's numbers (definition `number_before`) and in the lent index (document 02, section 9); they count from 1.
pub fn number_before(s: &[u32], i: usize) -> u32
    requires { (i ≤ 4096) × (length s.now ≡ 16385) }
    ensures { result ≡ number_before s.now i }
{
    if i == 0 {
        return 0;
    }
    s[4 * (i - 1) + 1]
}

// The number of the latest of the first n steps that shares a sample with the block at a row and column; 0 for none.
pub fn last_touch(s: &[u32], row: usize, column: usize, n: usize) -> u32
    requires { (n ≤ 4096) × (length s.now ≡ 16385) }
    ensures { result ≡ last_touch row column (marks s.now n) }
{
    match latest(s, row, column, n) {
        Some(i) => s[4 * i + 1],
        None => 0,
    }
}

// Refusal 13 where a later step shares a sample with step i.
pub fn overlapped(s: &[u32], i: usize, number: u32) -> Result<(), Reason>
    requires { (i < 4096) × (count s.now ≤ 4096) × (length s.now ≡ 16385) }
    ensures { verdict_of result ≡ unless (free s.now i) (refused 13 0 number) done }
{
    let b = 4 * i + 1;
    let n = word(s, 0);
    let row = word(s, b + 2);
    let column = word(s, b + 3);
    if latest(s, row, column, n) != Some(i) {
        return Err(Reason::Step(number as usize));
    }
    Ok(())
}
