// A history of remaining lossless steps in lent memory, with a last-touch index: document 02, section 9.
// steps: the count, then number, depth, row and column of each step; levels: sixteen of each; index: for each 4x4 grid cell of the visible area the
// number of the latest remaining step that shares a sample with it. All zero is the empty history.
#![tactic(auto)]

ghost use Rattle.std.specs.Prelude.{◌≡◌, ◌-◌, IfOk, length};
ghost use Rattle.remain.specs.Remaining.{count};
ghost use Rattle.keeping.specs.Range.{area};
ghost use Rattle.history.specs.Calls.{lent, step_of, undo_verdict, undo_of, withdraw_verdict, withdraw_of, spot_of, rebuild_of};
ghost use Rattle.history.specs.Bounds.{judged};

use answers::{Answer, Reason};
use keeping::front;
use keeping::front::Area;
use remain::{cells, words};

// The samples: 8, 10, 14, and the work.
pub mod calls;

// A lossless step, remembered.
pub fn history_step(
    depth: u32,
    plane: &mut [i32],
    stride: usize,
    width: usize,
    rows: usize,
    row: usize,
    column: usize,
    level: &[i32],
    steps: &mut [u32],
    levels: &mut [i32],
    index: &mut [u32],
) -> Answer
    ensures { (result, lent plane.new steps.new levels.new index.new)
        ≡ step_of (area (length plane.old) stride width rows) depth row column level.now (lent plane.old steps.old levels.old index.old) }
{
    let area = Area {
        size: plane.len(),
        stride,
        width,
        rows,
    };
    match front::judge_step(area, depth, row, column, level, steps, levels, index.len()) {
        Err(reason) => Answer::from(reason),
        Ok(()) => Answer::from(calls::step(
            depth, plane, stride, width, rows, row, column, level, steps, levels, index,
        )),
    }
}

// The refusals 5, 12, 13, 8 and 10 of an undo of the newest; otherwise its place in the list.
fn judge_undo(
    plane: &[i32],
    stride: usize,
    width: usize,
    rows: usize,
    steps: &[u32],
    levels: &[i32],
    index: &[u32],
) -> Result<usize, Reason>
    ensures verdict { judged result ≡ undo_verdict (area (length plane.now) stride width rows) (lent plane.now steps.now levels.now index.now) }
    ensures place { IfOk result (λ i. i ≡ count steps.now - 1) }
{
    let area = Area {
        size: plane.len(),
        stride,
        width,
        rows,
    };
    front::judge_kept(area, steps, levels, index.len())?;
    let n = words::word(steps, 0);
    if n == 0 {
        return Err(Reason::Step(0));
    }
    let i = n - 1;
    calls::judge_out(plane, stride, i, steps, levels)?;
    Ok(i)
}

// The newest remaining step, undone.
pub fn history_undo(
    plane: &mut [i32],
    stride: usize,
    width: usize,
    rows: usize,
    steps: &mut [u32],
    levels: &mut [i32],
    index: &mut [u32],
) -> Answer
    ensures { (result, lent plane.new steps.new levels.new index.new)
        ≡ undo_of (area (length plane.old) stride width rows) (lent plane.old steps.old levels.old index.old) }
{
    match judge_undo(plane, stride, width, rows, steps, levels, index) {
        Err(reason) => Answer::from(reason),
        Ok(i) => {
            calls::take_out(plane, stride, width, rows, i, steps, levels, index);
            answers::finished()
        }
    }
}

// The refusals 5, 12, 13, 8 and 10 of a withdrawal, and 13 again; otherwise the step's place in the list.
fn judge_withdraw(
    plane: &[i32],
    stride: usize,
    width: usize,
    rows: usize,
    number: u32,
    steps: &[u32],
    levels: &[i32],
    index: &[u32],
) -> Result<usize, Reason>
    ensures verdict { judged result ≡ withdraw_verdict (area (length plane.now) stride width rows) number (lent plane.now steps.now levels.now index.now) }
    ensures place { IfOk result (λ i. i ≡ spot_of steps.now number) }
{
    let area = Area {
        size: plane.len(),
        stride,
        width,
        rows,
    };
    front::judge_kept(area, steps, levels, index.len())?;
    let n = words::word(steps, 0);
    let Some(i) = words::found(steps, number, n) else {
        return Err(Reason::Step(number as usize));
    };
    calls::judge_out(plane, stride, i, steps, levels)?;
    words::overlapped(steps, i, number)?;
    Ok(i)
}

// What a withdrawal of the remaining step with a number would answer.
pub fn history_can_withdraw(
    plane: &[i32],
    stride: usize,
    width: usize,
    rows: usize,
    number: u32,
    steps: &[u32],
    levels: &[i32],
    index: &[u32],
) -> Answer
    ensures { result ≡ withdraw_verdict (area (length plane.now) stride width rows) number (lent plane.now steps.now levels.now index.now) }
{
    match judge_withdraw(plane, stride, width, rows, number, steps, levels, index) {
        Err(reason) => Answer::from(reason),
        Ok(_) => answers::finished(),
    }
}

// The remaining step with a number, undone.
pub fn history_withdraw(
    plane: &mut [i32],
    stride: usize,
    width: usize,
    rows: usize,
    number: u32,
    steps: &mut [u32],
    levels: &mut [i32],
    index: &mut [u32],
) -> Answer
    ensures { (result, lent plane.new steps.new levels.new index.new)
        ≡ withdraw_of (area (length plane.old) stride width rows) number (lent plane.old steps.old levels.old index.old) }
{
    match judge_withdraw(plane, stride, width, rows, number, steps, levels, index) {
        Err(reason) => Answer::from(reason),
        Ok(i) => {
            calls::take_out(plane, stride, width, rows, i, steps, levels, index);
            answers::finished()
        }
    }
}

// The whole index, from the list.
pub fn history_rebuild(
    plane: &[i32],
    stride: usize,
    width: usize,
    rows: usize,
    steps: &[u32],
    levels: &[i32],
    index: &mut [u32],
) -> Answer
    ensures { (result, index.new) ≡ rebuild_of (area (length plane.now) stride width rows) steps.now levels.now index.old }
{
    let area = Area {
        size: plane.len(),
        stride,
        width,
        rows,
    };
    match front::judge_kept(area, steps, levels, index.len()) {
        Err(reason) => Answer::from(reason),
        Ok(()) => {
            cells::rebuild(steps, width, rows, index);
            answers::finished()
        }
    }
}
